// Bytes with their taint, written: one element, and bytes of one buffer to another, total on every index. A store past the end changes nothing.

#![tactic(auto)]

ghost use Rattle.std.specs.Prelude.{◌≡◌, ◌+◌, ◌%◌, ◌≤◌, [], ◌∷◌, length, set};
ghost use Rattle.cells.specs.Buffer.{mark_of};
ghost use Rattle.cells.specs.Writes.{written, written_all, number_writes, copy_writes};
ghost use Rattle.cells.specs.Lent.{viewed, held, Becomes};
ghost use Rattle.cell_writes.specs.Mirror.FourSet.{four_set};
ghost use Rattle.cell_writes.specs.Mirror.CopyRoom.{CopyRoom, copy_room};

use cells::{Buffer, View};

fn set_past(bytes: &mut [u8], at: usize, k: usize, value: u8)
    ensures { bytes.new ≡ set bytes.old (at + k) value }
{
    if cell_reads::inside(bytes.len(), at, k) {
        bytes[at + k] = value;
    }
}

fn set_byte_past(to: &mut Buffer<'_>, at: usize, k: usize, value: u8, tainted: bool)
    ensures { Becomes to.old to.new (written (record { at = at + k; value = value; mark = mark_of tainted }) (held to.old)) }
{
    set_past(to.bytes, at, k, value);
    set_past(to.taint, at, k, u8::from(tainted));
}

// Four bytes that are there, one by one: over `copy_from_slice` the proof didn't close.
fn set_four(bytes: &mut [u8], at: usize, four: [u8; 4])
    requires { at + 4 ≤ length bytes.old }
    ensures { bytes.new ≡ four_set bytes.old at four }
{
    bytes[at] = four[0];
    bytes[at + 1] = four[1];
    bytes[at + 2] = four[2];
    bytes[at + 3] = four[3];
}

// Four marks that are there. Four numbers and no array: an array is put together in a register before it is stored, which costs a scatter a quarter
// more.
fn set_four_marks(taint: &mut [u8], at: usize, first: u8, second: u8, third: u8, fourth: u8)
    requires { at + 4 ≤ length taint.old }
    ensures { taint.new ≡ four_set taint.old at (first ∷ second ∷ third ∷ fourth ∷ []) }
{
    taint[at] = first;
    taint[at + 1] = second;
    taint[at + 2] = third;
    taint[at + 3] = fourth;
}

// `as`, proved to keep the number: `try_from` would have an Err that no value reaches.
fn set_dword(to: &mut Buffer<'_>, at: usize, value: u64, tainted: bool)
    requires { (at + 4 ≤ length to.old.bytes.now) × (at + 4 ≤ length to.old.taint.now) }
    ensures { Becomes to.old to.new (written_all (number_writes at 4 (mark_of tainted) value) (held to.old)) }
{
    let dword = (value % 4294967296) as u32;
    set_four(to.bytes, at, dword.to_le_bytes());
    set_four(to.taint, at, [u8::from(tainted); 4]);
}

fn set_qword(to: &mut Buffer<'_>, at: usize, value: u64, tainted: bool)
    requires { (at + 8 ≤ length to.old.bytes.now) × (at + 8 ≤ length to.old.taint.now) }
    ensures { Becomes to.old to.new (written_all (number_writes at 8 (mark_of tainted) value) (held to.old)) }
{
    set_dword(to, at, value, tainted);
    set_dword(to, at + 4, value / 256 / 256 / 256 / 256, tainted);
}

fn set_any_number(to: &mut Buffer<'_>, at: usize, size: u8, value: u64, tainted: bool)
    ensures { Becomes to.old to.new (written_all (number_writes at size (mark_of tainted) value) (held to.old)) }
{
    let mut rest = value;
    for k in 0..size {
        set_byte_past(to, at, usize::from(k), (rest % 256) as u8, tainted);
        rest /= 256;
    }
}

// The size low bytes of a number, all tainted or all not.
pub fn set_number(to: &mut Buffer<'_>, at: usize, size: u8, value: u64, tainted: bool)
    ensures { Becomes to.old to.new (written_all (number_writes at size (mark_of tainted) value) (held to.old)) }
{
    let count = usize::from(size);
    let room = cell_reads::has_room(to.bytes.len(), at, count)
        & cell_reads::has_room(to.taint.len(), at, count);
    if room & (size == 4) {
        set_dword(to, at, value, tainted);
        return;
    }
    if room & (size == 8) {
        set_qword(to, at, value, tainted);
        return;
    }
    set_any_number(to, at, size, value, tainted);
}

fn copy_four(from: View<'_>, source_at: usize, to: &mut Buffer<'_>, at: usize)
    requires { CopyRoom (viewed from) source_at (held to.old) at 4 }
    ensures { Becomes to.old to.new (written_all (copy_writes (viewed from.entry) source_at at 4) (held to.old)) }
{
    let bytes = from.bytes;
    let taint = from.taint;
    let four = [
        bytes[source_at],
        bytes[source_at + 1],
        bytes[source_at + 2],
        bytes[source_at + 3],
    ];
    set_four(to.bytes, at, four);
    let first = u8::from(cell_reads::is_tainted(taint[source_at]));
    let second = u8::from(cell_reads::is_tainted(taint[source_at + 1]));
    let third = u8::from(cell_reads::is_tainted(taint[source_at + 2]));
    let fourth = u8::from(cell_reads::is_tainted(taint[source_at + 3]));
    set_four_marks(to.taint, at, first, second, third, fourth);
}

fn copy_fours(from: View<'_>, source_at: usize, to: &mut Buffer<'_>, at: usize, count: usize)
    requires { CopyRoom (viewed from) source_at (held to.old) at count × (count % 4 ≡ 0) }
    ensures { Becomes to.old to.new (written_all (copy_writes (viewed from.entry) source_at at count) (held to.old)) }
{
    for four in 0..count / 4 {
        copy_four(from, source_at + 4 * four, to, at + 4 * four);
    }
}

fn copy_any(from: View<'_>, source_at: usize, to: &mut Buffer<'_>, at: usize, count: usize)
    ensures { Becomes to.old to.new (written_all (copy_writes (viewed from.entry) source_at at count) (held to.old)) }
{
    for k in 0..count {
        let value = cell_reads::byte_past(from.bytes, source_at, k);
        let tainted = cell_reads::is_tainted(cell_reads::byte_past(from.taint, source_at, k));
        set_byte_past(to, at, k, value, tainted);
    }
}

// Whether both buffers have so many bytes there, with their taint.
fn copy_has_room(from: View<'_>, source_at: usize, to: &Buffer<'_>, at: usize, count: usize) -> bool
    ensures { result ≡ copy_room (viewed from.entry) source_at (held to.now) at count }
{
    let read = cell_reads::has_room(from.bytes.len(), source_at, count)
        & cell_reads::has_room(from.taint.len(), source_at, count);
    let written = cell_reads::has_room(to.bytes.len(), at, count)
        & cell_reads::has_room(to.taint.len(), at, count);
    read & written
}

// Bytes of one buffer to another, each with its taint.
pub fn copy(from: View<'_>, source_at: usize, to: &mut Buffer<'_>, at: usize, count: usize)
    ensures { Becomes to.old to.new (written_all (copy_writes (viewed from.entry) source_at at count) (held to.old)) }
{
    let room = copy_has_room(from, source_at, to, at, count);
    if room & (count % 4 == 0) {
        copy_fours(from, source_at, to, at, count);
    } else {
        copy_any(from, source_at, to, at, count);
    }
}

// Four bytes of one buffer to another, each with its taint: `copy` at 4 without its loop, since a scatter writes nothing but dwords.
pub fn copy_dword(from: View<'_>, source_at: usize, to: &mut Buffer<'_>, at: usize)
    ensures { Becomes to.old to.new (written_all (copy_writes (viewed from.entry) source_at at 4) (held to.old)) }
{
    if copy_has_room(from, source_at, to, at, 4) {
        copy_four(from, source_at, to, at);
    } else {
        copy_any(from, source_at, to, at, 4);
    }
}
