// What the pairs of a scatter write: each enabled channel of each lane that is on copies its dword from the room to memory.

#![tactic(auto)]

ghost use Rattle.std.specs.Prelude.{◌≡◌, false, cond, [], ◌-◌, ◌≤◌, get_or};
ghost use Rattle.cells.specs.Writes.{written_all};
ghost use Rattle.cells.specs.Lent.{viewed, held, Becomes};
ghost use Rattle.bits.specs.Bits.{bit};
ghost use Rattle.payloads.specs.Needed.{enabled_below};
ghost use Rattle.scatter_writes.specs.Mirror.Writes.{row_place, pair_writes, row_writes, all_writes};

use cells::{Buffer, View};
use scatter_pairs::{Pairs, Targets};

// The number of enabled channels below one.
fn rank(channels: u8, channel: u8) -> u8
    requires { channel ≤ 4 }
    ensures { result ≡ enabled_below channels channel }
{
    let mut count = 0;
    for k in 0..channel {
        count += (channels >> k) % 2;
    }
    count
}

// The byte of the room where the data of a channel begin.
// `as`: there is no `usize::from` of a `u32`.
fn row_place(pairs: Pairs, channel: u8) -> usize
    requires { channel ≤ 4 }
    ensures { (result ≡ row_place pairs channel) × (result ≤ 8589934592) }
{
    let below = usize::from(rank(pairs.channels, channel));
    (pairs.first as usize) + 4 * (below * usize::from(pairs.stride))
}

// The byte of memory at an address; 0 before the base. A usize has 64 bits: a TryFrom would answer an Err that never comes.
fn memory_place(base: u64, address: u64) -> usize
    ensures { result ≡ address - base }
{
    address.saturating_sub(base) as usize
}

// A channel, the byte of the room where its data begin, and the base of the memory that they go to.
#[derive(Clone, Copy)]
struct Row {
    channel: u8,
    begin: usize,
    base: u64,
}

#[tactic(auto, unfolding(crate::specs::Mirror::Writes::pair_writes))]
fn write_lane(room: View<'_>, row: Row, targets: Targets<'_>, lane: u8, memory: &mut Buffer<'_>)
    requires { row.begin ≤ 8589934592 }
    ensures { Becomes memory.old memory.new (written_all (cond (get_or targets.entry.on.now lane false) (pair_writes row.base (viewed room.entry) row.begin (get_or targets.entry.sums.now lane 0) row.channel lane) []) (held memory.old)) }
{
    if targets.on_at(lane) {
        let from = row.begin + 4 * usize::from(lane);
        let to = memory_place(
            row.base,
            scatter_pairs::target_from(targets.sum_at(lane), row.channel),
        );
        cell_writes::copy_dword(room, from, memory, to);
    }
}

fn write_row(room: View<'_>, row: Row, targets: Targets<'_>, lanes: u8, memory: &mut Buffer<'_>)
    requires { row.begin ≤ 8589934592 }
    ensures { Becomes memory.old memory.new (written_all (row_writes row.base (viewed room.entry) row.begin targets.entry.on.now targets.entry.sums.now lanes row.channel) (held memory.old)) }
{
    for lane in 0..lanes {
        write_lane(room, row, targets, lane, memory);
    }
}

fn write_channel(
    room: View<'_>,
    pairs: Pairs,
    targets: Targets<'_>,
    base: u64,
    channel: u8,
    memory: &mut Buffer<'_>,
)
    requires { channel ≤ 4 }
    ensures { Becomes memory.old memory.new (written_all (cond (bit pairs.channels channel) (row_writes base (viewed room.entry) (row_place pairs channel) targets.entry.on.now targets.entry.sums.now pairs.lanes channel) []) (held memory.old)) }
{
    if pairs.has_channel(channel) {
        let row = Row {
            channel,
            begin: row_place(pairs, channel),
            base,
        };
        write_row(room, row, targets, pairs.lanes, memory);
    }
}

// Channel outer, lane inner: the later write stays.
pub fn write_pairs(
    room: View<'_>,
    pairs: Pairs,
    targets: Targets<'_>,
    base: u64,
    memory: &mut Buffer<'_>,
)
    ensures { Becomes memory.old memory.new (written_all (all_writes base (viewed room.entry) pairs targets.entry.on.now targets.entry.sums.now) (held memory.old)) }
{
    for channel in 0..4 {
        write_channel(room, pairs, targets, base, channel, memory);
    }
}
