// The pairs of a channel and a lane of a scatter: what is asked of their addresses, 10 over all lanes, 11 and 12 over all pairs.

#![tactic(auto)]

ghost use Rattle.std.specs.Prelude.{◌≡◌, false, ◌&&◌, slice_index, slice_index_or};
ghost use Rattle.bits.specs.Bits.{bit};
ghost use Rattle.staging.specs.Mirror.Room.{either_staged};
ghost use Rattle.scatter_effect.specs.Scatter.{outside};
ghost use Rattle.scatter_pairs.specs.Mirror.Rules.{breaks};
ghost use Rattle.scatter_pairs.specs.Mirror.Search.{target_from, some_tainted, detail_found, first_breaking};

use cells::View;
use staging::Layout;

// What every target address has to meet. The window is given by its base and its length.
#[derive(Clone, Copy)]
pub enum Rule {
    Aligned,
    Inside { base: u64, length: u64 },
}

// Whether the four bytes at an address are not all in the window. A sum that could wrap is never taken. One test after the other, and no `||`: what
// does not go by the address is then tested once and not for each pair.
#[tactic(auto, unfolding(scatter_effect::specs::Scatter::outside))]
fn outside(base: u64, length: u64, address: u64) -> bool
    ensures { result ≡ outside (record { base = base; length = length }) address }
{
    if length < 4 {
        return true;
    }
    if address < base {
        return true;
    }
    length - 4 < address - base
}

fn breaks(rule: Rule, address: u64) -> bool
    ensures { result ≡ breaks rule address }
{
    match rule {
        Rule::Aligned => address % 4 != 0,
        Rule::Inside { base, length } => outside(base, length, address),
    }
}

// What of the plan is asked of each pair: the lanes, the enabled channels, the dwords from a channel's data to the next channel's, and the byte
// of the room where the data begin.
#[derive(Clone, Copy)]
pub struct Pairs {
    pub lanes: u8,
    pub channels: u8,
    pub stride: u8,
    pub first: u32,
}

impl Pairs {
    // Whether a channel is enabled.
    pub fn has_channel(self, channel: u8) -> bool
        ensures { result ≡ bit self.channels channel }
    {
        channels::bit_at(u32::from(self.channels), usize::from(channel))
    }
}

// A channel of a lane.
#[derive(Clone, Copy)]
pub struct Pair {
    pub channel: u8,
    pub lane: u8,
}

// What was worked out once for each lane: whether it is on, and the sum of its address and its element offset. Two slices side by side, since
// the definitions of the search and of the writes (`first_breaking`, `all_writes`) are over the two lists.
#[derive(Clone, Copy)]
pub struct Targets<'a> {
    pub on: &'a [bool],
    pub sums: &'a [u64],
}

impl Targets<'_> {
    // Whether a lane is on; one that was not worked out is not.
    pub fn on_at(self, lane: u8) -> bool
        ensures { result ≡ slice_index_or self.entry.on.now lane false }
    {
        self.on.get(usize::from(lane)).copied().unwrap_or(false)
    }

    // The sum of a lane's address and its element offset; 0 where it was not worked out.
    pub fn sum_at(self, lane: u8) -> u64
        ensures { result ≡ slice_index self.entry.sums.now lane }
    {
        self.sums.get(usize::from(lane)).copied().unwrap_or(0)
    }
}

// The address that a channel of a lane goes to, modulo 2^64.
#[tactic(auto, unfolding(crate::specs::Mirror::Search::target_from))]
pub fn target_from(sum: u64, channel: u8) -> u64
    ensures { result ≡ target_from sum channel }
{
    sum.wrapping_add(4 * u64::from(channel))
}

fn lane_tainted(room: View<'_>, layout: Layout, targets: Targets<'_>, lane: u8) -> bool
    ensures { result ≡ (slice_index_or targets.entry.on.now lane false && either_staged room.entry.taint.now layout lane) }
{
    targets.on_at(lane) & staging::either_taint(room, layout, lane)
}

// Whether an address is doubtful, over all enabled lanes. No address is looked at.
pub fn some_tainted(room: View<'_>, layout: Layout, targets: Targets<'_>) -> bool
    ensures { result ≡ some_tainted room.entry.taint.now layout targets.entry.on.now }
{
    let mut found = false;
    for lane in 0..layout.lanes {
        found |= lane_tainted(room, layout, targets, lane);
    }
    found
}

fn lane_breaks(rule: Rule, targets: Targets<'_>, channel: u8, lane: u8) -> bool
    ensures { result ≡ (slice_index_or targets.entry.on.now lane false && breaks rule (target_from (slice_index targets.entry.sums.now lane) channel)) }
{
    targets.on_at(lane) & breaks(rule, target_from(targets.sum_at(lane), channel))
}

// The first enabled pair of a channel and a lane that breaks a rule: it ends the search.
pub fn first_breaking(rule: Rule, pairs: Pairs, targets: Targets<'_>) -> Option<Pair>
    ensures { detail_found result ≡ first_breaking rule pairs targets.entry.on.now targets.entry.sums.now }
{
    let mut found = None;
    'search: for channel in 0..4u8 {
        if pairs.has_channel(channel) {
            'lanes: for lane in 0..pairs.lanes {
                if lane_breaks(rule, targets, channel, lane) {
                    found = Some(Pair { channel, lane });
                    break 'search;
                }
            }
        }
    }
    found
}
