// Parts of an instruction's line, written into a page. What does not fit is lost.

#![tactic(auto)]

ghost use Rattle.std.specs.Prelude.{◌≡◌, ◌+◌, ◌*◌, ◌++◌};
ghost use Rattle.hex_text.specs.Storing.{fits, stored};
ghost use Rattle.formats.specs.Text.{text};
ghost use Rattle.formats.specs.Words.{words, word_at};
ghost use Rattle.formats.specs.Numerals.{digits_of};
ghost use Rattle.format_writers.specs.Pages.{Writes};
ghost use Rattle.text_parts.specs.Mirror.Raw.{raw};
ghost use Rattle.text_parts.specs.Mirror.Immediate.{type_behind, place_of, immediate};

use format_writers::Page;
use formats::Base;
use operand_fields::{Immediate, Raw};

// A decimal number and the word that ends it, the first of a table.
pub fn put_decimal(page: &mut Page<'_>, end: &[u8], n: u64)
    ensures { Writes page.old page.new (digits_of 10 n ++ word_at (words end.now) 0) }
{
    page.number(Base::Decimal, n);
    page.word(end, 0);
}

// The same in hex, behind `0x`.
pub fn put_hexadecimal(page: &mut Page<'_>, end: &[u8], n: u64)
    ensures { Writes page.old page.new (text "0x" ++ (digits_of 16 n ++ word_at (words end.now) 0)) }
{
    page.word(b"0x|", 0);
    page.number(Base::Hexadecimal, n);
    page.word(end, 0);
}

pub fn put_raw(page: &mut Page<'_>, r: Raw)
    ensures { Writes page.old page.new (raw.print r) }
{
    let index = u64::from(r.index);
    let offset = u64::from(r.offset);
    page.word(b"v|", 0);
    put_decimal(page, b".|", index);
    page.number(Base::Decimal, offset);
}

fn put_type(page: &mut Page<'_>, n: u64, place: u64)
    ensures { Writes page.old page.new ((type_behind n).print place) }
{
    if n < 4294967296 {
        page.word(b":uq|:ud|:d|:uw|:w|:ub|:b|:f|", place);
    } else {
        page.word(b":uq|", place);
    }
}

// A type's number among those that an immediate may show.
#[tactic(auto, unfolding(text_parts::specs::Mirror::Immediate::place_of))]
fn type_place(code: u8) -> u64
    ensures { result ≡ place_of code }
{
    match code {
        element_types::UQ => 0,
        element_types::F => 7,
        _ => u64::from(code) + 1,
    }
}

fn whole_number(low: u32, high: u32) -> u64
    ensures { result ≡ high * 4294967296 + low }
{
    u64::from(high) * 4294967296 + u64::from(low)
}

// An immediate behind its `0x`.
pub fn put_immediate(page: &mut Page<'_>, i: Immediate)
    ensures { Writes page.old page.new (immediate.print i) }
{
    let number = whole_number(i.low, i.high);
    let place = type_place(i.code);
    page.number(Base::Hexadecimal, number);
    put_type(page, number, place);
}

// A text at the buffer's start if the buffer has room for all of it, and whether it has; nothing is written if not.
pub fn put_whole(out: &mut [u8], text: &[u8]) -> bool
    ensures { (result ≡ fits text.now 0 out.old) × (out.new ≡ stored text.now 0 out.old) }
{
    if text.len() > out.len() {
        return false;
    }
    out[..text.len()].copy_from_slice(text);
    true
}
