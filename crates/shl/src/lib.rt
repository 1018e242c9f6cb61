// SHL: each enabled lane's source shifted, all sources read before any write.

#![tactic(auto)]

ghost use Rattle.std.specs.Prelude.{◌≡◌, cond, [], ◌≤◌};
ghost use Rattle.cells.specs.Writes.{written_all};
ghost use Rattle.cells.specs.Lent.{viewed, held, Becomes};
ghost use Rattle.cells.specs.Over.{among, each};
ghost use Rattle.cells.specs.Effect.{RegistersDone};
ghost use Rattle.plan.specs.Planned.{plan_of};
ghost use Rattle.channels.specs.Mirror.Prepared.{is_on};
ghost use Rattle.shl.specs.Mirror.FromRoom.{shape_of, room_value, room_writes, room_lane};
ghost use Rattle.shl.specs.Mirror.Guarded.{shl_fits, shl_guarded};

use cells::{Buffer, View};
use channels::Lanes;
use plan::Plan;
use refusal::Refusal;
use staging::Layout;

// Whether the sources have room, and are small enough to be shifted.
// Each instruction has a test of its own: sizes, lanes and what else is asked differ (`shl_fits`, `gather_fits`, `scatter_fits`).
#[tactic(auto, unfolding(crate::specs::Mirror::Guarded::shl_fits))]
fn fits(plan: Plan) -> bool
    ensures { result ≡ shl_fits (plan_of plan) }
{
    let lanes = exec_byte::split(plan.control.exec).size;
    staging::elements_fit(4, plan.left, lanes)
        && staging::elements_fit(4, plan.right, lanes)
        && plan.payload.size <= 4
}

// What a lane asks of the plan: how its sources stand in the room, the sign of the first, and the size of the destination. A gather's shape shares
// the layout alone with it, so one generic shape would be no plainer.
#[derive(Clone, Copy)]
struct Shape {
    layout: Layout,
    signed: bool,
    size: u8,
}

fn shape_of(plan: Plan) -> Shape
    ensures { result ≡ shape_of (plan_of plan) }
{
    let lanes = exec_byte::split(plan.control.exec).size;
    Shape {
        layout: staging::layout_of(plan.left, plan.right, lanes),
        signed: plan.left.signed,
        size: plan.payload.size,
    }
}

#[tactic(auto, unfolding(crate::specs::Mirror::FromRoom::room_value))]
fn lane_value(room: View<'_>, shape: Shape, lane: u8) -> u64
    ensures { result ≡ room_value room.entry.bytes.now shape lane }
{
    let layout = shape.layout;
    let value = staging::first_number(room, layout, lane);
    let count = staging::second_number(room, layout, lane);
    shift::shift(shape.signed, layout.first, value, count, shape.size)
}

// A lane that is off writes nothing.
#[tactic(auto, unfolding(crate::specs::Mirror::FromRoom::room_writes))]
fn write_lane(shape: Shape, on: bool, at: u32, lane: u8, room: View<'_>, registers: &mut Buffer<'_>)
    ensures { Becomes registers.old registers.new (written_all (cond on (room_writes (viewed room.entry) shape at lane) []) (held registers.old)) }
{
    if on {
        let value = lane_value(room, shape, lane);
        let tainted = staging::either_taint(room, shape.layout, lane);
        // `as`: there is no `usize::from` of a `u32`
        cell_writes::set_number(registers, at as usize, shape.size, value, tainted);
    }
}

// The lanes in order, of sources in the room.
fn write_lanes(
    shape: Shape,
    lanes: Lanes,
    positions: &[u32; 32],
    room: View<'_>,
    registers: &mut Buffer<'_>,
)
    requires { shape.layout.lanes ≤ 32 }
    ensures { Becomes registers.old registers.new (written_all (each (room_lane (viewed room.entry) shape positions.now) (among (is_on lanes) shape.layout.lanes)) (held registers.old)) }
{
    for lane in 0..shape.layout.lanes {
        let index = usize::from(lane);
        write_lane(
            shape,
            lanes.on(index),
            positions[index],
            lane,
            room,
            registers,
        );
    }
}

// Refused, with nothing written, is only a plan that no check makes.
pub fn shl(plan: Plan, mask: u32, registers: &mut Buffer<'_>) -> Result<(), Refusal>
    ensures { RegistersDone (shl_guarded mask (plan_of plan) (held registers.old)) result registers.old registers.new }
{
    if !fits(plan) {
        return Err(Refusal::Outside);
    }
    let shape = shape_of(plan);
    let lanes = channels::lanes_of(plan.control.exec, plan.control.pred, mask, plan.bits);
    let room = staging::stage_both(registers.view(), plan.left, plan.right, shape.layout.lanes);
    write_lanes(shape, lanes, &plan.payload.at, room.view(), registers);
    Ok(())
}
