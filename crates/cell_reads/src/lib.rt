// Bytes with their taint, read: one byte and one element, total on every index. A byte past the end reads 0.

#![tactic(auto)]

ghost use Rattle.std.specs.Prelude.{◌≡◌, ◌+◌, ◌<◌, ◌≤◌, ltb, leb, length, get_or};
ghost use Rattle.little_endian.specs.LittleEndian.{number_at};
ghost use Rattle.cells.specs.Buffer.{is_tainted, any_tainted};
ghost use Rattle.cells.specs.Element.{element};

pub fn is_tainted(mark: u8) -> bool
    ensures { result ≡ is_tainted mark }
{
    mark != 0
}

// Whether the byte k past a position lies before an end. A sum that could wrap is never taken.
pub fn inside(end: usize, at: usize, k: usize) -> bool
    ensures { result ≡ ltb (at + k) end }
{
    if at < end { k < end - at } else { false }
}

pub fn byte_past(bytes: &[u8], at: usize, k: usize) -> u8
    ensures { result ≡ get_or bytes.now (at + k) 0 }
{
    if inside(bytes.len(), at, k) {
        bytes[at + k]
    } else {
        0
    }
}

// Whether so many bytes from a position on lie before an end.
pub fn has_room(end: usize, at: usize, count: usize) -> bool
    ensures { result ≡ leb (at + count) end }
{
    count <= end && at <= end - count
}

// Four bytes that are there: no test for each.
// Elements of four bytes and of eight have functions of their own: no test for each byte, and no loop.
fn four_at(bytes: &[u8], at: usize) -> u64
    requires { at + 4 ≤ length bytes.now }
    ensures { (result ≡ number_at 4 bytes.now at) × (result < 4294967296) }
{
    u64::from(u32::from_le_bytes([bytes[at], bytes[at + 1], bytes[at + 2], bytes[at + 3]]))
}

fn eight_at(bytes: &[u8], at: usize) -> u64
    requires { at + 8 ≤ length bytes.now }
    ensures { result ≡ number_at 8 bytes.now at }
{
    let low = four_at(bytes, at);
    let high = four_at(bytes, at + 4);
    low + 4294967296 * high
}

// The highest byte first, so that each turn makes room for the next.
fn small_number_at(bytes: &[u8], at: usize, size: u8) -> u64
    requires { size ≤ 8 }
    ensures { result ≡ number_at size bytes.now at }
{
    let mut number: u64 = 0;
    for k in (0..size).rev() {
        number = number * 256 + u64::from(byte_past(bytes, at, usize::from(k)));
    }
    number
}

fn any_number_at(bytes: &[u8], at: usize, size: u8) -> u64
    ensures { result ≡ element size bytes.now at }
{
    if size <= 8 {
        small_number_at(bytes, at, size)
    } else {
        0
    }
}

// The element of size bytes at a position.
pub fn number_at(bytes: &[u8], at: usize, size: u8) -> u64
    ensures { result ≡ element size bytes.now at }
{
    let room = has_room(bytes.len(), at, usize::from(size));
    if room & (size == 4) {
        return four_at(bytes, at);
    }
    if room & (size == 8) {
        return eight_at(bytes, at);
    }
    any_number_at(bytes, at, size)
}

fn four_tainted(taint: &[u8], at: usize) -> bool
    requires { at + 4 ≤ length taint.now }
    ensures { result ≡ any_tainted taint.now at 4 }
{
    let first = is_tainted(taint[at]);
    let second = is_tainted(taint[at + 1]);
    let third = is_tainted(taint[at + 2]);
    let fourth = is_tainted(taint[at + 3]);
    first | (second | (third | fourth))
}

fn eight_tainted(taint: &[u8], at: usize) -> bool
    requires { at + 8 ≤ length taint.now }
    ensures { result ≡ any_tainted taint.now at 8 }
{
    let low = four_tainted(taint, at);
    let high = four_tainted(taint, at + 4);
    low | high
}

fn some_tainted(taint: &[u8], at: usize, size: u8) -> bool
    ensures { result ≡ any_tainted taint.now at size }
{
    let mut found = false;
    for k in 0..size {
        found |= is_tainted(byte_past(taint, at, usize::from(k)));
    }
    found
}

// Whether any byte of the element at a position is tainted.
pub fn any_tainted(taint: &[u8], at: usize, size: u8) -> bool
    ensures { result ≡ any_tainted taint.now at size }
{
    let room = has_room(taint.len(), at, usize::from(size));
    if room & (size == 4) {
        return four_tainted(taint, at);
    }
    if room & (size == 8) {
        return eight_tainted(taint, at);
    }
    some_tainted(taint, at, size)
}
