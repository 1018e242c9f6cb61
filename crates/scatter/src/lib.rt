// SVM SCATTER4_SCALED: each enabled channel of each enabled lane writes a dword to memory.

#![tactic(auto)]

ghost use Rattle.std.specs.Prelude.{◌≡◌, ◌≤◌, true};
ghost use Rattle.cells.specs.Lent.{viewed};
ghost use Rattle.staging.specs.Staged.{in_room};
ghost use Rattle.cells.specs.Effect.{MemoryDone};
ghost use Rattle.plan.specs.Planned.{plan_of};
ghost use Rattle.scatter.specs.Mirror.Guarded.{scatter_fits, window, scatter_guarded};
ghost use Rattle.scatter.specs.Mirror.FromRoom.{layout_for, pairs_of, sources_staged, lane_sum, WorkedOut, room_effect};

use cells::{Buffer, View};
use channels::Lanes;
use plan::Plan;
use refusal::Refusal;
use scatter_pairs::{Pairs, Rule, Targets};
use staging::{Layout, Room};

fn layout_for(plan: Plan) -> Layout
    ensures { result ≡ layout_for (plan_of plan) }
{
    staging::layout_of(
        plan.left,
        plan.right,
        exec_byte::split(plan.control.exec).size,
    )
}

fn pairs_of(plan: Plan) -> Pairs
    ensures { result ≡ pairs_of (plan_of plan) }
{
    Pairs {
        lanes: exec_byte::split(plan.control.exec).size,
        channels: plan.channels,
        stride: plan.stride,
        first: staging::data_place(layout_for(plan)),
    }
}

// What is worked out once for each lane: whether it is on, and the sum of its address and its element offset.
// Two arrays, as `Targets` has two slices: `WorkedOut`, `first_breaking` and `all_writes` are over two lists.
#[derive(Clone, Copy)]
struct LaneSums {
    on: [bool; 16],
    sums: [u64; 16],
}

// The sum of a lane's address and its element offset, modulo 2^64.
#[tactic(auto, unfolding(crate::specs::Mirror::FromRoom::lane_sum))]
fn lane_sum(room: View<'_>, layout: Layout, lane: u8) -> u64
    ensures { result ≡ lane_sum room.entry.bytes.now layout lane }
{
    let address = staging::first_number(room, layout, lane);
    let element = staging::second_number(room, layout, lane);
    address.wrapping_add(element)
}

fn sums_of(room: View<'_>, layout: Layout, lanes: Lanes) -> LaneSums
    requires { layout.lanes ≤ 16 }
    ensures { WorkedOut room.entry.bytes.now layout lanes result.on result.sums }
{
    let mut on = [false; 16];
    let mut sums = [0u64; 16];
    for lane in 0..layout.lanes {
        let index = usize::from(lane);
        on[index] = lanes.on(index);
        sums[index] = lane_sum(room, layout, lane);
    }
    LaneSums { on, sums }
}

// 10 over all lanes, 11 over all pairs, 12 over all pairs; then the writes.
fn from_room(
    room: View<'_>,
    layout: Layout,
    pairs: Pairs,
    targets: Targets<'_>,
    base: u64,
    memory: &mut Buffer<'_>,
) -> Result<(), Refusal>
    ensures { MemoryDone (room_effect (window base memory.old.bytes.now) layout pairs targets.entry.on.now targets.entry.sums.now (viewed room.entry)) result memory.old memory.new }
{
    if scatter_pairs::some_tainted(room, layout, targets) {
        return Err(Refusal::Doubtful);
    }
    let misaligned = scatter_pairs::first_breaking(Rule::Aligned, pairs, targets);
    if let Some(pair) = misaligned {
        return Err(Refusal::Misaligned {
            channel: pair.channel,
            lane: pair.lane,
        });
    }
    // `as`: there is no `u64::from` of a `usize`
    let length = memory.bytes.len() as u64;
    let outside = scatter_pairs::first_breaking(Rule::Inside { base, length }, pairs, targets);
    if let Some(pair) = outside {
        return Err(Refusal::OutsideWindow {
            channel: pair.channel,
            lane: pair.lane,
        });
    }
    scatter_writes::write_pairs(room, pairs, targets, base, memory);
    Ok(())
}

// Whether the lanes are no more than 16, nor the dwords from a channel's data to the next channel's, and the elements of both addresses have room.
#[tactic(auto, unfolding(crate::specs::Mirror::Guarded::scatter_fits))]
fn fits(plan: Plan) -> bool
    ensures { result ≡ scatter_fits (plan_of plan) }
{
    let lanes = exec_byte::split(plan.control.exec).size;
    lanes <= 16
        && plan.stride <= 16
        && staging::elements_fit(8, plan.left, lanes)
        && staging::elements_fit(8, plan.right, lanes)
}

// All sources: the addresses' elements, and the dwords of Src that the enabled channels need.
// `as`: there is no `usize::from` of a `u32`.
#[tactic(auto, unfolding(crate::specs::Mirror::FromRoom::sources_staged))]
fn stage_sources(registers: View<'_>, plan: Plan) -> Room
    ensures { in_room result ≡ sources_staged (viewed registers.entry) (plan_of plan) }
{
    let lanes = exec_byte::split(plan.control.exec).size;
    let from = plan.payload.at[0] as usize;
    let needed = payloads::scatter_needed(plan.stride, plan.control.exec, plan.channels) as usize;
    staging::stage_with_data(registers, plan.left, plan.right, lanes, from, needed)
}

// A scatter of a plan that fits.
fn scatter_fitting(
    plan: Plan,
    mask: u32,
    base: u64,
    registers: View<'_>,
    memory: &mut Buffer<'_>,
) -> Result<(), Refusal>
    requires { scatter_fits (plan_of plan) ≡ true }
    ensures { MemoryDone (scatter_guarded (window base memory.old.bytes.now) mask (plan_of plan) (viewed registers.entry)) result memory.old memory.new }
{
    let lanes = channels::lanes_of(plan.control.exec, plan.control.pred, mask, plan.bits);
    let layout = layout_for(plan);
    let room = stage_sources(registers, plan);
    let view = room.view();
    let worked = sums_of(view, layout, lanes);
    let targets = Targets {
        on: &worked.on,
        sums: &worked.sums,
    };
    from_room(view, layout, pairs_of(plan), targets, base, memory)
}

// A refusal, with nothing written, or the dwords written; outside is only a plan that no check makes.
pub fn scatter(
    plan: Plan,
    mask: u32,
    base: u64,
    registers: View<'_>,
    memory: &mut Buffer<'_>,
) -> Result<(), Refusal>
    ensures { MemoryDone (scatter_guarded (window base memory.old.bytes.now) mask (plan_of plan) (viewed registers.entry)) result memory.old memory.new }
{
    if fits(plan) {
        scatter_fitting(plan, mask, base, registers, memory)
    } else {
        Err(Refusal::Outside)
    }
}
