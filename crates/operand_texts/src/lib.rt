// Operands of an instruction's line, read from a text: regions, General operands, sources and destinations.

#![tactic(auto)]

ghost use Rattle.std.specs.Prelude.{◌≡◌, ◌&&◌, ◌+◌, ◌*◌, ◌-◌, ◌≤◌, ◌<◌, eqb};
ghost use Rattle.formats.specs.Told.{told};
ghost use Rattle.operand_texts.specs.Mirror.Region.{source_region, stride_behind, destination_region};
ghost use Rattle.operand_texts.specs.Mirror.Operand.{general_operand, source, destination};
ghost use Rattle.operand_texts.specs.Mirror.Roles.{region_of};

use formats::{Cursor, Stop};
use operand_fields::{General, Operand};

// Where an operand stands: it says how its region is written.
// Two and not `region_rules`' three: a scalar's region is written as a source's.
#[derive(Clone, Copy)]
enum Role {
    Source,
    Destination,
}

// The region's word of three codes.
// Here and below `as`, proved to keep the number: a `try_from` would have an Err that no value reaches.
fn region_word(v: u64, w: u64, h: u64) -> u16
    requires { (v < 8) × (w < 8) × (h < 8) }
    ensures { result ≡ v + 16 * w + 256 * h }
{
    (v + 16 * w + 256 * h) as u16
}

// All three fields.
#[tactic(auto, unfolding(crate::specs::Mirror::Region::source_region, formats::specs::Format::pair, formats::specs::Format::through))]
fn source_region_at(text: &[u8], cursor: Cursor) -> Result<(u16, Cursor), Stop>
    ensures { told result ≡ source_region.read text.now cursor.at }
{
    let (v, cursor) = cursor.one_of(text, b"<n;|<0;|<1;|<2;|<4;|<8;|<16;|<32;|")?;
    let (w, cursor) = cursor.one_of(text, b"n,|0,|1,|2,|4,|8,|16,|32,|")?;
    let (h, cursor) = cursor.one_of(text, b"n>|0>|1>|2>|4>|8>|16>|32>|")?;
    Ok((region_word(v, w, h), cursor))
}

// Whether the codes of V and W are both Null.
fn are_null(v: u64, w: u64) -> bool
    ensures { result ≡ (eqb v 0 && eqb w 0) }
{
    v == 0 && w == 0
}

// H behind the V and W of a destination.
#[tactic(auto, unfolding(crate::specs::Mirror::Region::stride_behind))]
fn stride_at(text: &[u8], cursor: Cursor, v: u64, w: u64) -> Result<(u64, Cursor), Stop>
    ensures { told result ≡ (stride_behind v w).read text.now cursor.at }
{
    if are_null(v, w) {
        cursor.one_of(text, b"n>|")
    } else {
        cursor.one_of(text, b"n>|0>|1>|2>|4>|8>|16>|32>|")
    }
}

// The region's word of H alone, where `first` is the number in the table of what begins a destination's region.
fn stride_word(first: u64) -> u16
    requires { (8 ≤ first) × (first < 15) }
    ensures { result ≡ 256 * (first - 7) }
{
    (256 * (first - 7)) as u16
}

// H alone, or all three fields.
#[tactic(auto, unfolding(crate::specs::Mirror::Region::destination_region, crate::specs::Mirror::Region::width_and_stride, formats::specs::Format::pair, formats::specs::Format::through, formats::specs::Format::blank))]
fn destination_region_at(text: &[u8], cursor: Cursor) -> Result<(u16, Cursor), Stop>
    ensures { told result ≡ destination_region.read text.now cursor.at }
{
    let (first, cursor) = cursor.one_of(
        text,
        b"<n;|<0;|<1;|<2;|<4;|<8;|<16;|<32;|<0>|<1>|<2>|<4>|<8>|<16>|<32>|",
    )?;
    if first >= 8 {
        return Ok((stride_word(first), cursor));
    }
    let (w, cursor) = cursor.one_of(text, b"n,|0,|1,|2,|4,|8,|16,|32,|")?;
    let (h, cursor) = stride_at(text, cursor, first, w)?;
    Ok((region_word(first, w, h), cursor))
}

fn region_at(text: &[u8], cursor: Cursor, role: Role) -> Result<(u16, Cursor), Stop>
    ensures { told result ≡ (region_of role).read text.now cursor.at }
{
    match role {
        Role::Source => source_region_at(text, cursor),
        Role::Destination => destination_region_at(text, cursor),
    }
}

// A General operand behind its `v`.
#[tactic(auto, using(crate::proofs::BoundLaws::general_bounds), unfolding(crate::specs::Mirror::Operand::general_operand, crate::specs::Mirror::General::general, crate::specs::Mirror::General::general_parts, formats::specs::Format::pair, formats::specs::Format::through))]
fn general_at(text: &[u8], cursor: Cursor, role: Role) -> Result<(Operand, Cursor), Stop>
    ensures { told result ≡ (general_operand (region_of role)).read text.now cursor.at }
{
    let (index, cursor) = text_parts::decimal_at(text, cursor, 0, 65535, b"(|")?;
    let (row, cursor) = text_parts::decimal_at(text, cursor, 0, 255, b",|")?;
    let (column, cursor) = text_parts::decimal_at(text, cursor, 0, 255, b")|")?;
    let (region, cursor) = region_at(text, cursor, role)?;
    let general = General {
        index: index as u16,
        row: row as u8,
        column: column as u8,
        region,
    };
    Ok((Operand::General(general), cursor))
}

// A source or a scalar.
#[tactic(auto, using(crate::proofs::ReadLaws::second_alone), unfolding(crate::specs::Mirror::Operand::source, crate::specs::Mirror::Operand::formed, crate::specs::Mirror::Operand::immediate_operand, formats::specs::Format::pair, formats::specs::Format::through))]
pub fn source_at(text: &[u8], cursor: Cursor) -> Result<(Operand, Cursor), Stop>
    ensures { told result ≡ source.read text.now cursor.at }
{
    let (form, cursor) = cursor.one_of(text, b"v|0x|")?;
    if form == 0 {
        return general_at(text, cursor, Role::Source);
    }
    let (immediate, cursor) = text_parts::immediate_at(text, cursor)?;
    Ok((Operand::Immediate(immediate), cursor))
}

#[tactic(auto, using(crate::proofs::ReadLaws::second_alone), unfolding(crate::specs::Mirror::Operand::destination, formats::specs::Words::before, formats::specs::Format::pair, formats::specs::Format::through))]
pub fn destination_at(text: &[u8], cursor: Cursor) -> Result<(Operand, Cursor), Stop>
    ensures { told result ≡ destination.read text.now cursor.at }
{
    let (_, cursor) = cursor.one_of(text, b"v|")?;
    general_at(text, cursor, Role::Destination)
}
