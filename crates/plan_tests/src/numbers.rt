// The little-endian numbers that stand in a line of lower-case hex, and tables of them. Positions count bytes; past the end all is 0.
ghost use Rattle.std.specs.Prelude.{◌≡◌, ◌≤◌, ◌<◌, length};

// The number that a lower-case hex digit stands for. `codec_tests` has it too: `streams` and `hex_text` are no place for a digit that takes every character, a line's
// end among them, to a number, and no other crate that both use reads lines of tests.
fn digit(glyph: u8) -> u8
    ensures { result < 16 }
{
    if glyph < b'a' {
        glyph % 16
    } else {
        (glyph % 16 + 9) % 16
    }
}

fn digit_at(line: &[u8], at: usize) -> u8
    ensures { result < 16 }
{
    if at < line.len() { digit(line[at]) } else { 0 }
}

pub(crate) fn byte(line: &[u8], at: usize) -> u8
    requires { at ≤ 2097152 }
{
    16 * digit_at(line, 2 * at) + digit_at(line, 2 * at + 1)
}

// Here and below by sums: an array for `from_le_bytes` would be no plainer.
pub(crate) fn word(line: &[u8], at: usize) -> u16
    requires { at ≤ 2097151 }
{
    u16::from(byte(line, at)) + 256 * u16::from(byte(line, at + 1))
}

pub(crate) fn dword(line: &[u8], at: usize) -> u32
    requires { at ≤ 2097149 }
{
    u32::from(word(line, at)) + 65536 * u32::from(word(line, at + 2))
}

pub(crate) fn qword(line: &[u8], at: usize) -> u64
    requires { at ≤ 2097145 }
{
    u64::from(dword(line, at)) + 4294967296 * u64::from(dword(line, at + 4))
}

pub(crate) fn size(line: &[u8], at: usize) -> usize
    requires { at ≤ 2097151 }
{
    usize::from(word(line, at))
}

// A number of entries that a table of 257 can have.
pub(crate) fn entries(line: &[u8], at: usize) -> usize
    requires { at ≤ 2097151 }
    ensures { result ≤ 257 }
{
    size(line, at) % 258
}

// The bytes of a kernel, at most 64, and zeros behind them.
pub(crate) fn kernel_of(line: &[u8]) -> [u8; 64]
    ensures { 64 ≡ length result }
{
    let mut kernel = [0; 64];
    for i in 0..64 {
        kernel[i] = byte(line, i);
    }
    kernel
}

// A table's entries, and `past` behind the last one.
fn table_of<T: Copy, F: Fn(u16) -> T>(count: u16, past: T, entry: F) -> [T; 257]
    requires { F.IsAlwaysCallable entry }
    ensures { 257 ≡ length result }
{
    let mut table = [past; 257];
    for i in 0..count.min(257) {
        table[usize::from(i)] = entry(i);
    }
    table
}

// In a table's line the number of its entries comes first; a variable has five bytes, and so has a predicate. A byte of each entry: the first
// entry's at `first`, and `past` behind the last one.
pub(crate) fn bytes_of(line: &[u8], first: usize, past: u8) -> [u8; 257]
    requires { first ≤ 16 }
    ensures { 257 ≡ length result }
{
    table_of(
        word(line, 0),
        past,
        |i| byte(line, 5 * usize::from(i) + first),
    )
}

// The predicates' bits, 0 behind the last one.
pub(crate) fn bits_of(line: &[u8]) -> [u32; 257]
    ensures { 257 ≡ length result }
{
    table_of(word(line, 0), 0, |i| dword(line, 5 * usize::from(i) + 2))
}

// A word of each entry: the first entry's at `first`, the others' `stride` bytes apart, and `past` behind the last one.
pub(crate) fn words_of(line: &[u8], first: usize, stride: usize, past: u16) -> [u16; 257]
    requires { (first ≤ 16) × (stride ≤ 16) }
    ensures { 257 ≡ length result }
{
    table_of(
        word(line, 0),
        past,
        |i| word(line, stride * usize::from(i) + first),
    )
}
