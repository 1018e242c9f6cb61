// GATHER_SCALED: each enabled lane's dword, read from the surface at an address that its two offsets give.

#![tactic(auto)]

ghost use Rattle.std.specs.Prelude.{◌≡◌, ◌%◌, ◌≤◌, [], if◌then◌else◌};
ghost use Rattle.little_endian.specs.LittleEndian.{Bytes};
ghost use Rattle.cells.specs.Writes.{written_all};
ghost use Rattle.cells.specs.Lent.{viewed, held, Becomes};
ghost use Rattle.cells.specs.Over.{among, each};
ghost use Rattle.cells.specs.Effect.{RegistersDone};
ghost use Rattle.plan.specs.Planned.{plan_of};
ghost use Rattle.channels.specs.Mirror.Prepared.{is_on};
ghost use Rattle.gather.specs.Mirror.FromRoom.{shape_of, room_address, bytes_read, dword_writes, room_writes, room_lane};
ghost use Rattle.gather.specs.Mirror.Guarded.{gather_fits, gather_guarded};

use cells::{Buffer, View};
use channels::Lanes;
use plan::Plan;
use refusal::Refusal;
use staging::Layout;

// Whether the offsets have room, and are dwords at most.
#[tactic(auto, unfolding(crate::specs::Mirror::Guarded::gather_fits))]
fn fits(plan: Plan) -> bool
    ensures { result ≡ gather_fits (plan_of plan) }
{
    let lanes = exec_byte::split(plan.control.exec).size;
    staging::elements_fit(4, plan.left, lanes) && staging::elements_fit(4, plan.right, lanes)
}

// What a lane asks of the plan: how its offsets stand in the room, where the surface begins among all surfaces, its length, and the bytes of a
// block.
#[derive(Clone, Copy)]
struct Shape {
    layout: Layout,
    start: u32,
    length: u32,
    block: u8,
}

fn shape_of(plan: Plan) -> Shape
    ensures { result ≡ shape_of (plan_of plan) }
{
    let lanes = exec_byte::split(plan.control.exec).size;
    Shape {
        layout: staging::layout_of(plan.left, plan.right, lanes),
        start: plan.start,
        length: plan.length,
        block: plan.bytes,
    }
}

// The numbers cast to a narrower type, here and in bytes_read, fit: a TryFrom would answer an Err that never comes.
fn low_dword(number: u64) -> u32
    ensures { result ≡ number % 4294967296 }
{
    (number % 4294967296) as u32
}

// The sum of a lane's two offsets, modulo 2^32.
#[tactic(auto, unfolding(crate::specs::Mirror::FromRoom::room_address, gather_effect::specs::Gather::gather_address))]
fn address_of(room: View<'_>, layout: Layout, lane: u8) -> u32
    ensures { result ≡ room_address room.entry.bytes.now layout lane }
{
    let offset = low_dword(staging::first_number(room, layout, lane));
    let element_offset = low_dword(staging::second_number(room, layout, lane));
    offset.wrapping_add(element_offset)
}

// How many bytes of the dword are read: those of the block that lie before the surface's end.
#[tactic(auto, unfolding(crate::specs::Mirror::FromRoom::bytes_read))]
fn bytes_read(shape: Shape, address: u32) -> u8
    ensures { result ≡ bytes_read shape address }
{
    let left = shape.length.saturating_sub(address);
    u32::from(shape.block).min(4).min(left) as u8
}

// The dword of one lane, to the registers from a byte on. So many of its bytes are read from a position on, and the others are zeros.
fn write_dword(
    surfaces: View<'_>,
    from: usize,
    count: u8,
    doubtful: bool,
    registers: &mut Buffer<'_>,
    at: u32,
)
    requires { count ≤ 4 }
    ensures { Becomes registers.old registers.new (written_all (dword_writes (viewed surfaces.entry) from count doubtful at) (held registers.old)) }
{
    // `as`: there is no `usize::from` of a `u32`, here and below
    let place = at as usize;
    if doubtful {
        let value = cell_reads::number_at(surfaces.bytes, from, count);
        cell_writes::set_number(registers, place, 4, value, true);
    } else {
        let length = usize::from(count);
        cell_writes::copy(surfaces, from, registers, place, length);
        cell_writes::set_number(registers, place + length, 4 - count, 0, false);
    }
}

// What a lane that is on does.
#[tactic(auto, unfolding(crate::specs::Mirror::FromRoom::room_writes))]
fn gather_lane(
    shape: Shape,
    at: u32,
    lane: u8,
    room: View<'_>,
    surfaces: View<'_>,
    registers: &mut Buffer<'_>,
)
    ensures { Becomes registers.old registers.new (written_all (room_writes (viewed room.entry) (viewed surfaces.entry) shape at lane) (held registers.old)) }
{
    let doubtful = staging::either_taint(room, shape.layout, lane);
    let address = address_of(room, shape.layout, lane);
    let count = bytes_read(shape, address);
    let from = (shape.start as usize) + (address as usize);
    write_dword(surfaces, from, count, doubtful, registers, at);
}

// The lanes in order, of offsets in the room.
fn gather_lanes(
    shape: Shape,
    lanes: Lanes,
    positions: &[u32; 32],
    room: View<'_>,
    surfaces: View<'_>,
    registers: &mut Buffer<'_>,
)
    requires { shape.layout.lanes ≤ 32 }
    ensures { Becomes registers.old registers.new (written_all (each (room_lane (viewed room.entry) (viewed surfaces.entry) shape positions.now) (among (is_on lanes) shape.layout.lanes)) (held registers.old)) }
{
    for lane in 0..shape.layout.lanes {
        let index = usize::from(lane);
        if lanes.on(index) {
            gather_lane(shape, positions[index], lane, room, surfaces, registers);
        }
    }
}

// A slice of bytes has no number over 255. A slice within a struct doesn't say so by itself.
fn holds_bytes(bytes: &[u8])
    ensures { Bytes bytes.now }
{
    let _length = bytes.len();
}

// Refused, with nothing written, is only a plan that no check makes.
pub fn gather(
    plan: Plan,
    mask: u32,
    registers: &mut Buffer<'_>,
    surfaces: View<'_>,
) -> Result<(), Refusal>
    ensures { RegistersDone (gather_guarded mask (plan_of plan) (held registers.old) (viewed surfaces.entry)) result registers.old registers.new }
{
    if !fits(plan) {
        return Err(Refusal::Outside);
    }
    let shape = shape_of(plan);
    let lanes = channels::lanes_of(plan.control.exec, plan.control.pred, mask, plan.bits);
    let room = staging::stage_both(registers.view(), plan.left, plan.right, shape.layout.lanes);
    holds_bytes(surfaces.bytes);
    gather_lanes(
        shape,
        lanes,
        &plan.payload.at,
        room.view(),
        surfaces,
        registers,
    );
    Ok(())
}
