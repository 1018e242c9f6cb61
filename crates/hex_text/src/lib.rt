// Lower-case hex: the digits of a line, its bytes, and the little-endian numbers among them.

#![tactic(auto)]

ghost use Rattle.std.specs.Prelude.{◌≡◌, ◌+◌, ◌*◌, ◌-◌, ◌≤◌, ◌<◌, ◌^◌, length, get_or, drop};
ghost use Rattle.little_endian.specs.LittleEndian.{number_at};
ghost use Rattle.hex_text.specs.Digits.{is_decimal, is_letter, is_digit, digit_of, all_digits, character_of};
ghost use Rattle.hex_text.specs.Bytes.{is_hex, hex_bytes};
ghost use Rattle.hex_text.specs.Storing.{placed, fits, stored};

#[tactic(auto, unfolding(crate::specs::Digits::is_decimal))]
pub fn is_decimal(character: u8) -> bool
    ensures { result ≡ is_decimal character }
{
    matches!(character, b'0'..=b'9')
}

#[tactic(auto, unfolding(crate::specs::Digits::is_letter))]
pub fn is_letter(character: u8) -> bool
    ensures { result ≡ is_letter character }
{
    matches!(character, b'a'..=b'f')
}

#[tactic(auto, unfolding(crate::specs::Digits::is_digit))]
fn is_digit(character: u8) -> bool
    ensures { result ≡ is_digit character }
{
    is_decimal(character) | is_letter(character)
}

// The value of a digit; 0 for any other character.
// 0 and no Option, as in `digit_of`: `hex_bytes`, and so every clause over a line, has a byte for any two characters.
#[tactic(auto, unfolding(crate::specs::Digits::digit_of, crate::specs::Digits::is_decimal, crate::specs::Digits::is_letter))]
fn digit(character: u8) -> u8
    ensures { result ≡ digit_of character }
{
    match character {
        b'0'..=b'9' => character - b'0',
        b'a'..=b'f' => character - b'a' + 10,
        _ => 0,
    }
}

// The digit of a value below 16.
#[tactic(auto, unfolding(crate::specs::Digits::character_of))]
pub fn character(value: u8) -> u8
    ensures { result ≡ character_of value }
{
    match value {
        0..=9 => b'0' + value,
        10..=15 => b'a' + (value - 10),
        _ => b'0',
    }
}

// Each character is asked, whatever the ones before it are: a loop without another way out takes several at a time, and `all` of an iterator has one.
#[tactic(auto, using(crate::proofs::DigitLaws::digits_more), unfolding(crate::specs::Digits::all_digits))]
fn all_digits(line: &[u8]) -> bool
    ensures { result ≡ all_digits line.now }
{
    let mut all = true;
    for character in line {
        all &= is_digit(*character);
    }
    all
}

// Whether a line is bytes in hex, one at least.
#[tactic(auto, unfolding(crate::specs::Bytes::is_hex))]
pub fn is_hex(line: &[u8]) -> bool
    ensures { result ≡ is_hex line.now }
{
    !line.is_empty() && line.len() % 2 == 0 && all_digits(line)
}

// Byte `at` of a line; 0 past its end.
pub fn byte(line: &[u8], at: usize) -> u8
    ensures { result ≡ get_or (hex_bytes line.now) at 0 }
{
    if at < line.len() / 2 {
        let high = digit(line[2 * at]);
        let low = digit(line[2 * at + 1]);
        high * 16 + low
    } else {
        0
    }
}

// The bytes from byte `at` on, as a number's; each past the line's end is 0.
#[tactic(auto, using(crate::proofs::ByteLaws::number_same))]
fn bytes_at<const N: usize>(line: &[u8], at: usize) -> [u8; N]
    requires { at + N < 2 ^ 64 }
    ensures { number_at N result 0 ≡ number_at N (hex_bytes line.now) at }
{
    let mut bytes = [0; N];
    for k in 0..N {
        bytes[k] = byte(line, at + k);
    }
    bytes
}

// The number of two bytes (uw) from byte `at` on.
// Three and no generic one: `from_le_bytes` takes an array of the type's own length, and no const argument is computed from a type.
// They share `bytes_at`. `as`: there is no `usize::from` of a `u32`.
#[tactic(auto, using(crate::proofs::ByteLaws::le_number_2))]
pub fn word(line: &[u8], at: u32) -> u16
    ensures { result ≡ number_at 2 (hex_bytes line.now) at }
{
    u16::from_le_bytes(bytes_at(line, at as usize))
}

// The same of four bytes (ud).
#[tactic(auto, using(crate::proofs::ByteLaws::le_number_4))]
pub fn dword(line: &[u8], at: u16) -> u32
    ensures { result ≡ number_at 4 (hex_bytes line.now) at }
{
    u32::from_le_bytes(bytes_at(line, usize::from(at)))
}

// The same of eight bytes (uq).
#[tactic(auto, using(crate::proofs::ByteLaws::le_number_8))]
pub fn qword(line: &[u8], at: u8) -> u64
    ensures { result ≡ number_at 8 (hex_bytes line.now) at }
{
    u64::from_le_bytes(bytes_at(line, usize::from(at)))
}

// The line's bytes from byte `from` on, to the buffer's place `at` and after.
fn place(line: &[u8], from: usize, buffer: &mut [u8], at: usize)
    requires { at + (length (hex_bytes line.now) - from) ≤ length buffer.old }
    ensures { buffer.new ≡ placed buffer.old at (drop from (hex_bytes line.now)) }
{
    for i in from..line.len() / 2 {
        buffer[at + (i - from)] = byte(line, i);
    }
}

// The same if the buffer has room for all of them, and whether it has; nothing is stored if not.
pub fn store(line: &[u8], from: usize, buffer: &mut [u8], at: usize) -> bool
    ensures { (result ≡ fits (drop from (hex_bytes line.now)) at buffer.old) × (buffer.new ≡ stored (drop from (hex_bytes line.now)) at buffer.old) }
{
    if at > buffer.len() || content_length(line, from) > buffer.len() - at {
        return false;
    }
    place(line, from, buffer, at);
    true
}

// How many bytes a line has from byte `from` on.
#[tactic(auto, using(crate::proofs::ByteLaws::length_rest))]
pub fn content_length(line: &[u8], from: usize) -> usize
    ensures { result ≡ length (drop from (hex_bytes line.now)) }
{
    (line.len() / 2).saturating_sub(from)
}
