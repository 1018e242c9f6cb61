// Show: a part of the registers or of the memory, handed back to the caller.

#![tactic(auto)]

ghost use Rattle.std.specs.Prelude.{◌≡◌};
ghost use Rattle.show.specs.Show.{is_inside, part_of, shown_of, shown, shown_number};

// Which of the two buffers is shown.
#[derive(Clone, Copy)]
pub enum Place {
    Registers,
    Memory,
}

// The sum of the two may be too large for a usize.
// `reader::whole` and `cell_reads::has_room` are alike: this crate stands on no other, and one line is no reason to.
#[tactic(auto, unfolding(crate::specs::Show::is_inside))]
fn inside(bytes: &[u8], start: usize, count: usize) -> bool
    ensures { result ≡ is_inside bytes.now start count }
{
    start <= bytes.len() && count <= bytes.len() - start
}

#[tactic(auto, unfolding(crate::specs::Show::is_inside, crate::specs::Show::part_of))]
fn part(bytes: &[u8], start: usize, count: usize) -> &[u8]
    ensures { result.now ≡ part_of bytes.now start count }
{
    if inside(bytes, start, count) {
        &bytes[start..start + count]
    } else {
        &bytes[..0]
    }
}

// The buffer that is asked for.
#[tactic(auto, unfolding(crate::specs::Show::shown_of))]
fn asked<'a>(registers: &'a [u8], memory: &'a [u8], which: Place) -> &'a [u8]
    ensures { result.now ≡ shown_of which registers.now memory.now }
{
    match which {
        Place::Registers => registers,
        Place::Memory => memory,
    }
}

// A part of the registers or of the memory; an empty part where it runs over the end.
// A part and, beside it, a number, and no Result: `shown` gives an empty part and `shown_number` 7.
#[tactic(auto, unfolding(crate::specs::Show::shown))]
pub fn show<'a>(
    registers: &'a [u8],
    memory: &'a [u8],
    which: Place,
    start: usize,
    count: usize,
) -> &'a [u8]
    ensures { result.now ≡ shown which registers.now memory.now start count }
{
    part(asked(registers, memory, which), start, count)
}

// The number that goes with it: 0, or 7.
#[tactic(auto, unfolding(crate::specs::Show::shown_number))]
pub fn show_number(registers: &[u8], memory: &[u8], which: Place, start: usize, count: usize) -> u8
    ensures { result ≡ shown_number which registers.now memory.now start count }
{
    if inside(asked(registers, memory, which), start, count) {
        0
    } else {
        7
    }
}
