// The decoder: one instruction at a position of the kernel, field by field in the order of its page's Format table.

#![tactic(auto)]

ghost use Rattle.std.specs.Prelude.{◌≡◌};
ghost use Rattle.reader.specs.Reply.{reply, number_of};
ghost use Rattle.decoder.specs.Decoding.{shl_at, gather_at, scatter_at, svm_at, raw_send_at, instruction_at, own_bytes};

use field_groups::{Access, Control, Message};
use fields::{ByteRule, TagRule, WordRule};
use operand_fields::{Operand, Raw};
use reader::Cursor;
use refusal::Refusal;

#[derive(Clone, Copy)]
pub struct Shl {
    pub control: Control,
    pub destination: Operand,
    pub source: Operand,
    pub count: Operand,
}

#[derive(Clone, Copy)]
pub struct Gather {
    pub control: Control,
    pub access: Access,
    pub offset: Operand,
    pub element_offset: Raw,
    pub destination: Raw,
}

// `scale` is ignored and carried.
#[derive(Clone, Copy)]
pub struct Scatter {
    pub control: Control,
    pub channels: u8,
    pub scale: u16,
    pub address: Operand,
    pub element_offset: Raw,
    pub source: Raw,
}

#[derive(Clone, Copy)]
pub struct RawSend {
    pub modifiers: u8,
    pub control: Control,
    pub message: Message,
    pub descriptor: Operand,
    pub source: Raw,
    pub destination: Raw,
}

// A decoded instruction: the numbers of its fields. Opcodes and tags are told by the variants.
#[derive(Clone, Copy)]
pub enum Instruction {
    Shl(Shl),
    Gather(Gather),
    Scatter(Scatter),
    RawSend(RawSend),
}

// SHL after its opcode.
#[tactic(auto, unfolding(crate::specs::Decoding::shl_at))]
fn shl_fields(kernel: &[u8], cursor: Cursor) -> Result<(Instruction, Cursor), Refusal>
    ensures { reply result ≡ shl_at kernel.now cursor.at }
{
    let (control, cursor) = field_groups::control_field(kernel, cursor, ByteRule::Exec)?;
    let (destination, cursor) = operand_fields::operand_field(
        kernel,
        cursor,
        TagRule::Destination,
    )?;
    let (source, cursor) = operand_fields::operand_field(kernel, cursor, TagRule::Source)?;
    let (count, cursor) = operand_fields::operand_field(kernel, cursor, TagRule::Source)?;
    let shl = Shl {
        control,
        destination,
        source,
        count,
    };
    Ok((Instruction::Shl(shl), cursor))
}

// GATHER_SCALED after its opcode.
#[tactic(auto, unfolding(crate::specs::Decoding::gather_at))]
fn gather_fields(kernel: &[u8], cursor: Cursor) -> Result<(Instruction, Cursor), Refusal>
    ensures { reply result ≡ gather_at kernel.now cursor.at }
{
    let (control, cursor) = field_groups::control_field(kernel, cursor, ByteRule::Exec)?;
    let (access, cursor) = field_groups::access_field(kernel, cursor)?;
    let (last, cursor) = operand_fields::scalar_and_raws_field(kernel, cursor)?;
    let gather = Gather {
        control,
        access,
        offset: last.scalar,
        element_offset: last.first,
        destination: last.second,
    };
    Ok((Instruction::Gather(gather), cursor))
}

// SVM SCATTER4_SCALED after its sub-opcode.
#[tactic(auto, unfolding(crate::specs::Decoding::scatter_at))]
fn scatter_fields(kernel: &[u8], cursor: Cursor) -> Result<(Instruction, Cursor), Refusal>
    ensures { reply result ≡ scatter_at kernel.now cursor.at }
{
    let (control, cursor) = field_groups::control_field(kernel, cursor, ByteRule::ScatterExec)?;
    let (channels, cursor) = fields::read(kernel, cursor, ByteRule::Channels)?;
    let (scale, cursor) = fields::read(kernel, cursor, WordRule::Free)?;
    let (last, cursor) = operand_fields::scalar_and_raws_field(kernel, cursor)?;
    let scatter = Scatter {
        control,
        channels,
        scale,
        address: last.scalar,
        element_offset: last.first,
        source: last.second,
    };
    Ok((Instruction::Scatter(scatter), cursor))
}

// SVM after its opcode.
#[tactic(auto, unfolding(crate::specs::Decoding::svm_at))]
fn svm_fields(kernel: &[u8], cursor: Cursor) -> Result<(Instruction, Cursor), Refusal>
    ensures { reply result ≡ svm_at kernel.now cursor.at }
{
    let (sub_opcode, cursor) = fields::read(kernel, cursor, ByteRule::Free)?;
    match sub_opcode {
        0x07 => scatter_fields(kernel, cursor),
        _ => Err(Refusal::Opcode),
    }
}

// RAW_SEND after its opcode.
#[tactic(auto, unfolding(crate::specs::Decoding::raw_send_at))]
fn raw_send_fields(kernel: &[u8], cursor: Cursor) -> Result<(Instruction, Cursor), Refusal>
    ensures { reply result ≡ raw_send_at kernel.now cursor.at }
{
    let (modifiers, cursor) = fields::read(kernel, cursor, ByteRule::Modifiers)?;
    let (control, cursor) = field_groups::control_field(kernel, cursor, ByteRule::Exec)?;
    let (message, cursor) = field_groups::message_field(kernel, cursor)?;
    let (last, cursor) = operand_fields::scalar_and_raws_field(kernel, cursor)?;
    let raw_send = RawSend {
        modifiers,
        control,
        message,
        descriptor: last.scalar,
        source: last.first,
        destination: last.second,
    };
    Ok((Instruction::RawSend(raw_send), cursor))
}

// The instruction at a position, which may lie past the end, with the cursor at its end.
#[tactic(auto, unfolding(crate::specs::Decoding::instruction_at))]
pub fn decode(kernel: &[u8], at: usize) -> Result<(Instruction, Cursor), Refusal>
    ensures { reply result ≡ instruction_at kernel.now at }
{
    let (opcode, cursor) = fields::read(kernel, Cursor { at }, ByteRule::Free)?;
    match opcode {
        0x24 => shl_fields(kernel, cursor),
        0x78 => gather_fields(kernel, cursor),
        0x4e => svm_fields(kernel, cursor),
        0x5d => raw_send_fields(kernel, cursor),
        _ => Err(Refusal::Opcode),
    }
}

// The number that decoding at a position gives back: 0, or the refusal's.
// A number: the clause gives that of `instruction_at`. `decode` answers the Result.
#[tactic(auto, unfolding(reader::specs::Reply::number_of))]
pub fn decode_number(kernel: &[u8], at: usize) -> u8
    ensures { result ≡ number_of (instruction_at kernel.now at) }
{
    match decode(kernel, at) {
        Ok(_) => 0,
        Err(refusal) => refusal.number(),
    }
}

// The instruction's own bytes, as a part of the kernel; an empty part on a refusal.
// No Option: `own_bytes` of specs/ is [] on a refusal.
#[tactic(auto, unfolding(crate::specs::Decoding::own_bytes))]
pub fn own_bytes(kernel: &[u8], at: usize) -> &[u8]
    ensures { result.now ≡ own_bytes kernel.now at }
{
    match decode(kernel, at) {
        Ok((_, end)) => &kernel[at..end.at],
        Err(_) => &kernel[..0],
    }
}
