// Groups of fields: the parts of an instruction beside its operands, each read field by field in the order of its page's Format table.

#![tactic(auto)]

ghost use Rattle.std.specs.Prelude.{◌≡◌};
ghost use Rattle.field_groups.specs.Reading.{control_at, access_at, message_at};
ghost use Rattle.reader.specs.Reply.{reply};

use fields::{ByteRule, WordRule};
use reader::Cursor;
use refusal::Refusal;

// Exec_size and Pred, which every instruction has.
#[derive(Clone, Copy)]
pub struct Control {
    pub exec: u8,
    pub pred: u16,
}

// What a gather reads at each address. `block_size` and `scale` are ignored and carried.
#[derive(Clone, Copy)]
pub struct Access {
    pub block_size: u8,
    pub num_blocks: u8,
    pub scale: u16,
    pub surface: u8,
}

// ExMsgDesc, NumSrc and NumDst of a RAW_SEND.
#[derive(Clone, Copy)]
pub struct Message {
    pub extended: u32,
    pub num_src: u8,
    pub num_dst: u8,
}

#[tactic(auto, unfolding(crate::specs::Reading::control_at))]
pub fn control_field(
    kernel: &[u8],
    cursor: Cursor,
    rule: ByteRule,
) -> Result<(Control, Cursor), Refusal>
    ensures { reply result ≡ control_at rule kernel.now cursor.at }
{
    let (exec, cursor) = fields::read(kernel, cursor, rule)?;
    let (pred, cursor) = fields::read(kernel, cursor, WordRule::Predicate)?;
    Ok((Control { exec, pred }, cursor))
}

#[tactic(auto, unfolding(crate::specs::Reading::access_at))]
pub fn access_field(kernel: &[u8], cursor: Cursor) -> Result<(Access, Cursor), Refusal>
    ensures { reply result ≡ access_at kernel.now cursor.at }
{
    let (block_size, cursor) = fields::read(kernel, cursor, ByteRule::Free)?;
    let (num_blocks, cursor) = fields::read(kernel, cursor, ByteRule::NumBlocks)?;
    let (scale, cursor) = fields::read(kernel, cursor, WordRule::Free)?;
    let (surface, cursor) = fields::read(kernel, cursor, ByteRule::Free)?;
    let access = Access {
        block_size,
        num_blocks,
        scale,
        surface,
    };
    Ok((access, cursor))
}

#[tactic(auto, unfolding(crate::specs::Reading::message_at))]
pub fn message_field(kernel: &[u8], cursor: Cursor) -> Result<(Message, Cursor), Refusal>
    ensures { reply result ≡ message_at kernel.now cursor.at }
{
    let (extended, cursor) = fields::dword_field(kernel, cursor)?;
    let (num_src, cursor) = fields::read(kernel, cursor, ByteRule::NumSrc)?;
    let (num_dst, cursor) = fields::read(kernel, cursor, ByteRule::NumDst)?;
    let message = Message {
        extended,
        num_src,
        num_dst,
    };
    Ok((message, cursor))
}
