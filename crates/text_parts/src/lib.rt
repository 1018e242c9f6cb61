// Parts of an instruction's line, read from a text: numbers, raw operand, immediate.

#![tactic(auto)]

ghost use Rattle.std.specs.Prelude.{◌≡◌, ◌<◌};
ghost use Rattle.formats.specs.Told.{told};
ghost use Rattle.text_parts.specs.Mirror.Fields.{decimal, hexadecimal};
ghost use Rattle.text_parts.specs.Mirror.Raw.{raw};
ghost use Rattle.text_parts.specs.Mirror.Immediate.{type_behind, code_at, immediate};

use formats::{Base, Cursor, Stop};
use operand_fields::{Immediate, Raw};

// A decimal number and the word that ends it.
#[tactic(auto, using(formats::proofs::AroundLaws::after_read), unfolding(crate::specs::Mirror::Fields::decimal))]
pub fn decimal_at(
    text: &[u8],
    cursor: Cursor,
    low: u64,
    high: u64,
    end: &[u8],
) -> Result<(u64, Cursor), Stop>
    ensures { told result ≡ (decimal low high end.now).read text.now cursor.at }
{
    formats::ended(cursor.number(text, Base::Decimal, low, high), text, end)
}

// The same in hex, behind `0x`.
#[tactic(auto, using(formats::proofs::AroundLaws::after_read), unfolding(crate::specs::Mirror::Fields::hexadecimal, formats::specs::Words::before, formats::specs::Format::pair, formats::specs::Format::through))]
pub fn hexadecimal_at(
    text: &[u8],
    cursor: Cursor,
    high: u64,
    end: &[u8],
) -> Result<(u64, Cursor), Stop>
    ensures { told result ≡ (hexadecimal high end.now).read text.now cursor.at }
{
    let (_, cursor) = cursor.one_of(text, b"0x|")?;
    formats::ended(cursor.number(text, Base::Hexadecimal, 0, high), text, end)
}

// Here and below `as`, proved to keep the number: a `try_from` would have an Err that no value reaches.
#[tactic(auto, using(crate::proofs::BoundLaws::raw_bounds), unfolding(crate::specs::Mirror::Raw::raw, crate::specs::Mirror::Raw::raw_parts, formats::specs::Words::before, formats::specs::Format::pair, formats::specs::Format::through))]
pub fn raw_at(text: &[u8], cursor: Cursor) -> Result<(Raw, Cursor), Stop>
    ensures { told result ≡ raw.read text.now cursor.at }
{
    let (_, cursor) = cursor.one_of(text, b"v|")?;
    let (index, cursor) = decimal_at(text, cursor, 0, 65535, b".|")?;
    let (offset, cursor) = cursor.number(text, Base::Decimal, 0, 65535)?;
    let raw = Raw {
        index: index as u16,
        offset: offset as u16,
    };
    Ok((raw, cursor))
}

#[tactic(auto, unfolding(crate::specs::Mirror::Immediate::type_behind))]
fn type_at(text: &[u8], cursor: Cursor, n: u64) -> Result<(u64, Cursor), Stop>
    ensures { told result ≡ (type_behind n).read text.now cursor.at }
{
    if n < 4294967296 {
        cursor.one_of(text, b":uq|:ud|:d|:uw|:w|:ub|:b|:f|")
    } else {
        cursor.one_of(text, b":uq|")
    }
}

#[tactic(auto, unfolding(crate::specs::Mirror::Immediate::code_at))]
fn type_code(place: u64) -> u8
    requires { place < 8 }
    ensures { result ≡ code_at place }
{
    match place {
        0 => element_types::UQ,
        7 => element_types::F,
        _ => (place - 1) as u8,
    }
}

// An immediate behind its `0x`.
#[tactic(auto, using(crate::proofs::BoundLaws::type_bound), unfolding(crate::specs::Mirror::Immediate::immediate, crate::specs::Mirror::Immediate::immediate_parts, formats::specs::Format::pair, formats::specs::Format::through))]
pub fn immediate_at(text: &[u8], cursor: Cursor) -> Result<(Immediate, Cursor), Stop>
    ensures { told result ≡ immediate.read text.now cursor.at }
{
    let (n, cursor) = cursor.number(text, Base::Hexadecimal, 0, u64::MAX)?;
    let (place, cursor) = type_at(text, cursor, n)?;
    let immediate = Immediate {
        code: type_code(place),
        low: (n % 4294967296) as u32,
        high: (n / 4294967296) as u32,
    };
    Ok((immediate, cursor))
}
