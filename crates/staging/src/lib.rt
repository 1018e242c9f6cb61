// Staging: the sources of one instruction, with their taint, read before anything is written.

#![tactic(auto)]

ghost use Rattle.std.specs.Prelude.{◌≡◌, ◌+◌, ◌*◌, get_or};
ghost use Rattle.cells.specs.Writes.{written_all};
ghost use Rattle.cells.specs.Lent.{viewed, held, Becomes};
ghost use Rattle.staging.specs.Staged.{in_room};
ghost use Rattle.staging.specs.Mirror.Room.{layout_of, first_place, second_place, data_place, stage_lane, staged, sources_staged, both_staged, data_staged, first_number, second_number, either_staged, elements_fit};

use cells::{Buffer, View};
use operands::Elements;

// Bytes of sources, and their taint.
#[derive(Clone, Copy)]
pub struct Room {
    pub bytes: [u8; 512],
    pub taint: [u8; 512],
}

// How sources stand in the room: of so many lanes, with elements of these sizes.
#[derive(Clone, Copy)]
pub struct Layout {
    pub lanes: u8,
    pub first: u8,
    pub second: u8,
}

// Whether the lanes are no more than 32, and their elements have at most so many bytes each.
#[tactic(auto, unfolding(crate::specs::Mirror::Room::elements_fit))]
pub fn elements_fit(size: u8, elements: Elements, lanes: u8) -> bool
    ensures { result ≡ elements_fit size elements lanes }
{
    lanes <= 32 && elements.size <= size
}

pub fn layout_of(first: Elements, second: Elements, lanes: u8) -> Layout
    ensures { result ≡ layout_of first second lanes }
{
    Layout {
        lanes,
        first: first.size,
        second: second.size,
    }
}

#[tactic(auto, unfolding(crate::specs::Mirror::Room::first_place))]
fn first_place(layout: Layout, lane: u8) -> u32
    ensures { result ≡ first_place layout lane }
{
    u32::from(lane) * u32::from(layout.first)
}

#[tactic(auto, unfolding(crate::specs::Mirror::Room::second_place))]
fn second_place(layout: Layout, lane: u8) -> u32
    ensures { result ≡ second_place layout lane }
{
    u32::from(layout.lanes) * u32::from(layout.first) + u32::from(lane) * u32::from(layout.second)
}

// Where a scatter's data begin.
#[tactic(auto, unfolding(crate::specs::Mirror::Room::second_place, crate::specs::Mirror::Room::data_place))]
pub fn data_place(layout: Layout) -> u32
    ensures { result ≡ data_place layout }
{
    second_place(layout, layout.lanes)
}

// The register byte of a lane's element; 0 past the last lane.
// `as`: there is no `usize::from` of a `u32`, here and below.
fn position_of(elements: Elements, lane: u8) -> usize
    ensures { result ≡ get_or elements.at lane 0 }
{
    elements.at.get(usize::from(lane)).copied().unwrap_or(0) as usize
}

// The byte of the room where a lane's element goes.
fn place_of(elements: Elements, base: u32, lane: u8) -> usize
    ensures { result ≡ base + lane * elements.size }
{
    (base as usize) + usize::from(lane) * usize::from(elements.size)
}

#[tactic(auto, unfolding(crate::specs::Mirror::Room::stage_lane))]
fn stage_lane(registers: View<'_>, elements: Elements, lane: u8, base: u32, room: &mut Buffer<'_>)
    ensures { Becomes room.old room.new (written_all (stage_lane (viewed registers.entry) elements base lane) (held room.old)) }
{
    let place = place_of(elements, base, lane);
    if elements.immediate {
        cell_writes::set_number(room, place, elements.size, elements.value, false);
    } else {
        let from = position_of(elements, lane);
        cell_writes::copy(registers, from, room, place, usize::from(elements.size));
    }
}

// The elements of so many lanes, on or off, from a base on.
fn stage(registers: View<'_>, elements: Elements, lanes: u8, base: u32, room: &mut Buffer<'_>)
    ensures { Becomes room.old room.new (staged (viewed registers.entry) elements lanes base (held room.old)) }
{
    for lane in 0..lanes {
        stage_lane(registers, elements, lane, base, room);
    }
}

// Both sources of an instruction, one after the other.
fn stage_sources(
    registers: View<'_>,
    first: Elements,
    second: Elements,
    lanes: u8,
    room: &mut Buffer<'_>,
)
    ensures { Becomes room.old room.new (sources_staged (viewed registers.entry) first second lanes (held room.old)) }
{
    let layout = layout_of(first, second, lanes);
    let begin = first_place(layout, 0);
    let next = second_place(layout, 0);
    stage(registers, first, lanes, begin, room);
    stage(registers, second, lanes, next, room);
}

// Both sources of an instruction, in a room of zeros.
#[tactic(auto, unfolding(crate::specs::Mirror::Room::both_staged))]
pub fn stage_both(registers: View<'_>, first: Elements, second: Elements, lanes: u8) -> Room
    ensures { in_room result ≡ both_staged (viewed registers.entry) first second lanes }
{
    let mut room = Room {
        bytes: [0; 512],
        taint: [0; 512],
    };
    let mut buffer = Buffer {
        bytes: &mut room.bytes,
        taint: &mut room.taint,
    };
    stage_sources(registers, first, second, lanes, &mut buffer);
    room
}

// Both sources, and so many register bytes from a position on: a scatter's data.
#[tactic(auto, unfolding(crate::specs::Mirror::Room::data_staged))]
pub fn stage_with_data(
    registers: View<'_>,
    first: Elements,
    second: Elements,
    lanes: u8,
    from: usize,
    count: usize,
) -> Room
    ensures { in_room result ≡ data_staged (viewed registers.entry) first second lanes from count }
{
    let to = data_place(layout_of(first, second, lanes)) as usize;
    let mut room = stage_both(registers, first, second, lanes);
    let mut buffer = Buffer {
        bytes: &mut room.bytes,
        taint: &mut room.taint,
    };
    cell_writes::copy(registers, from, &mut buffer, to, count);
    room
}

impl Room {
    // To be read.
    pub fn view(&self) -> View<'_>
        ensures { viewed result ≡ in_room self.now }
    {
        View {
            bytes: &self.bytes,
            taint: &self.taint,
        }
    }
}

// A lane's element of the first source, in the room.
#[tactic(auto, unfolding(crate::specs::Mirror::Room::first_number))]
pub fn first_number(room: View<'_>, layout: Layout, lane: u8) -> u64
    ensures { result ≡ first_number room.entry.bytes.now layout lane }
{
    cell_reads::number_at(room.bytes, first_place(layout, lane) as usize, layout.first)
}

// A lane's element of the second.
#[tactic(auto, unfolding(crate::specs::Mirror::Room::second_number))]
pub fn second_number(room: View<'_>, layout: Layout, lane: u8) -> u64
    ensures { result ≡ second_number room.entry.bytes.now layout lane }
{
    cell_reads::number_at(
        room.bytes,
        second_place(layout, lane) as usize,
        layout.second,
    )
}

// Whether a byte of either is tainted.
#[tactic(auto, unfolding(crate::specs::Mirror::Room::either_staged))]
pub fn either_taint(room: View<'_>, layout: Layout, lane: u8) -> bool
    ensures { result ≡ either_staged room.entry.taint.now layout lane }
{
    let first = first_place(layout, lane) as usize;
    let second = second_place(layout, lane) as usize;
    cell_reads::any_tainted(room.taint, first, layout.first)
        || cell_reads::any_tainted(room.taint, second, layout.second)
}
