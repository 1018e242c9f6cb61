// The operands of an instruction, each read field by field in the order of its page's Format table.

#![tactic(auto)]

ghost use Rattle.std.specs.Prelude.{◌≡◌};
ghost use Rattle.element_types.specs.Types.{has_high_word};
ghost use Rattle.operand_fields.specs.Reading.{general_at, high_word_at, immediate_at, operand_at, raw_at, scalar_and_raws_at};
ghost use Rattle.reader.specs.Reply.{reply};

use fields::{ByteRule, TagRule, WordRule};
use reader::Cursor;
use refusal::Refusal;

#[derive(Clone, Copy)]
pub struct General {
    pub index: u16,
    pub row: u8,
    pub column: u8,
    pub region: u16,
}

// `code` is the type's code. `high` is 0 where the type stores no high word.
#[derive(Clone, Copy)]
pub struct Immediate {
    pub code: u8,
    pub low: u32,
    pub high: u32,
}

// A vector operand or a scalar.
#[derive(Clone, Copy)]
pub enum Operand {
    General(General),
    Immediate(Immediate),
}

// A raw operand: a variable and a byte offset in it.
#[derive(Clone, Copy)]
pub struct Raw {
    pub index: u16,
    pub offset: u16,
}

// A scalar and the two raw operands after it: how every instruction but SHL ends.
#[derive(Clone, Copy)]
pub struct ScalarAndRaws {
    pub scalar: Operand,
    pub first: Raw,
    pub second: Raw,
}

// A General operand after its tag.
#[tactic(auto, unfolding(crate::specs::Reading::general_at))]
fn general_field(kernel: &[u8], cursor: Cursor) -> Result<(Operand, Cursor), Refusal>
    ensures { reply result ≡ general_at kernel.now cursor.at }
{
    let (index, cursor) = fields::read(kernel, cursor, WordRule::Free)?;
    let (row, cursor) = fields::read(kernel, cursor, ByteRule::Free)?;
    let (column, cursor) = fields::read(kernel, cursor, ByteRule::Free)?;
    let (region, cursor) = fields::read(kernel, cursor, WordRule::Region)?;
    let general = General {
        index,
        row,
        column,
        region,
    };
    Ok((Operand::General(general), cursor))
}

// The high word of an immediate of this type, 0 where the type has none.
#[tactic(auto, unfolding(crate::specs::Reading::high_word_at))]
fn high_word(kernel: &[u8], cursor: Cursor, code: u8) -> Result<(u32, Cursor), Refusal>
    ensures { reply result ≡ high_word_at (has_high_word code) kernel.now cursor.at }
{
    if element_types::has_high_word(code) {
        fields::dword_field(kernel, cursor)
    } else {
        Ok((0, cursor))
    }
}

// An Immediate operand after its tag.
#[tactic(auto, unfolding(crate::specs::Reading::immediate_at))]
fn immediate_field(kernel: &[u8], cursor: Cursor) -> Result<(Operand, Cursor), Refusal>
    ensures { reply result ≡ immediate_at kernel.now cursor.at }
{
    let (code, cursor) = fields::read(kernel, cursor, ByteRule::ImmediateType)?;
    let (low, cursor) = fields::dword_field(kernel, cursor)?;
    let (high, cursor) = high_word(kernel, cursor, code)?;
    Ok((Operand::Immediate(Immediate { code, low, high }), cursor))
}

// A destination, source or scalar: the rule of its tag says which.
#[tactic(auto, unfolding(crate::specs::Reading::operand_at))]
pub fn operand_field(
    kernel: &[u8],
    cursor: Cursor,
    rule: TagRule,
) -> Result<(Operand, Cursor), Refusal>
    ensures { reply result ≡ operand_at rule kernel.now cursor.at }
{
    let (v, cursor) = fields::read(kernel, cursor, ByteRule::Tag(rule))?;
    match fields::split_tag(v).class {
        fields::GENERAL => general_field(kernel, cursor),
        fields::IMMEDIATE => immediate_field(kernel, cursor),
        _ => Err(Refusal::Unfit),
    }
}

#[tactic(auto, unfolding(crate::specs::Reading::raw_at))]
pub fn raw_field(kernel: &[u8], cursor: Cursor) -> Result<(Raw, Cursor), Refusal>
    ensures { reply result ≡ raw_at kernel.now cursor.at }
{
    let (index, cursor) = fields::read(kernel, cursor, WordRule::Free)?;
    let (offset, cursor) = fields::read(kernel, cursor, WordRule::Free)?;
    Ok((Raw { index, offset }, cursor))
}

#[tactic(auto, unfolding(crate::specs::Reading::scalar_and_raws_at))]
pub fn scalar_and_raws_field(
    kernel: &[u8],
    cursor: Cursor,
) -> Result<(ScalarAndRaws, Cursor), Refusal>
    ensures { reply result ≡ scalar_and_raws_at kernel.now cursor.at }
{
    let (scalar, cursor) = operand_field(kernel, cursor, TagRule::Scalar)?;
    let (first, cursor) = raw_field(kernel, cursor)?;
    let (second, cursor) = raw_field(kernel, cursor)?;
    let last = ScalarAndRaws {
        scalar,
        first,
        second,
    };
    Ok((last, cursor))
}
