// Lines of instructions, read from a text: what stands behind each name, the line, and a whole text.

#![tactic(auto)]

ghost use Rattle.std.specs.Prelude.{◌≡◌, suc, ◌≤◌};
ghost use Rattle.formats.specs.Told.{told};
ghost use Rattle.lines.specs.Mirror.Bodies.{shl, gather, scatter, raw_send};
ghost use Rattle.lines.specs.Mirror.Line.{body, line};
ghost use Rattle.lines.specs.Reading.{reading_of};
ghost use Rattle.lines.specs.Told.{told_text};

use decoder::{Gather, Instruction, RawSend, Scatter, Shl};
use field_groups::{Access, Control};
use formats::{Cursor, Stop};

// A text is no line: the column, from 1, of the first character with which no line goes on.
#[derive(Clone, Copy)]
pub struct NoLine {
    pub column: usize,
}

// What stands behind `SHL `.
#[tactic(auto, using(formats::proofs::AroundLaws::after_read), unfolding(crate::specs::Mirror::Bodies::shl, crate::specs::Mirror::Bodies::shl_parts, formats::specs::Format::pair, formats::specs::Format::through))]
fn shl_at(text: &[u8], cursor: Cursor, pred: u16) -> Result<(Instruction, Cursor), Stop>
    ensures { told result ≡ (shl pred).read text.now cursor.at }
{
    let (exec, cursor) = control_texts::exec_at(text, cursor)?;
    let (destination, cursor) = line_parts::spaced(
        operand_texts::destination_at(text, cursor),
        text,
    )?;
    let (source, cursor) = line_parts::spaced(operand_texts::source_at(text, cursor), text)?;
    let (count, cursor) = operand_texts::source_at(text, cursor)?;
    let shl = Shl {
        control: Control { exec, pred },
        destination,
        source,
        count,
    };
    Ok((Instruction::Shl(shl), cursor))
}

// What stands behind `GATHER_SCALED.`.
#[tactic(auto, unfolding(crate::specs::Mirror::Bodies::gather, crate::specs::Mirror::Bodies::gather_parts, formats::specs::Format::pair, formats::specs::Format::through))]
fn gather_at(text: &[u8], cursor: Cursor, pred: u16) -> Result<(Instruction, Cursor), Stop>
    ensures { told result ≡ (gather pred).read text.now cursor.at }
{
    let (num_blocks, cursor) = line_parts::blocks_at(text, cursor)?;
    let (exec, cursor) = control_texts::exec_at(text, cursor)?;
    let (surface, cursor) = line_parts::surface_at(text, cursor)?;
    let ((offset, (element_offset, destination)), cursor) = line_parts::scalar_and_raws_at(
        text, cursor,
    )?;
    let ((block_size, scale), cursor) = line_parts::gather_braces_at(text, cursor)?;
    let gather = Gather {
        control: Control { exec, pred },
        access: Access {
            block_size,
            num_blocks,
            scale,
            surface,
        },
        offset,
        element_offset,
        destination,
    };
    Ok((Instruction::Gather(gather), cursor))
}

// What stands behind `SVM_SCATTER4_SCALED.`.
#[tactic(auto, unfolding(crate::specs::Mirror::Bodies::scatter, crate::specs::Mirror::Bodies::scatter_parts, formats::specs::Format::pair, formats::specs::Format::through))]
fn scatter_at(text: &[u8], cursor: Cursor, pred: u16) -> Result<(Instruction, Cursor), Stop>
    ensures { told result ≡ (scatter pred).read text.now cursor.at }
{
    let (letters, cursor) = cursor.one_of(
        text,
        b"R |G |RG |B |RB |GB |RGB |A |RA |GA |RGA |BA |RBA |GBA |RGBA |",
    )?;
    let (exec, cursor) = control_texts::scatter_exec_at(text, cursor)?;
    let ((address, (element_offset, source)), cursor) = line_parts::scalar_and_raws_at(
        text, cursor,
    )?;
    let (scale, cursor) = line_parts::scatter_braces_at(text, cursor)?;
    let scatter = Scatter {
        control: Control { exec, pred },
        // `as`, proved to keep the number: a `try_from` would have an Err that no value reaches.
        channels: (letters + 1) as u8,
        scale,
        address,
        element_offset,
        source,
    };
    Ok((Instruction::Scatter(scatter), cursor))
}

// What stands behind `raw_send`.
#[tactic(auto, unfolding(crate::specs::Mirror::Bodies::raw_send, crate::specs::Mirror::Bodies::raw_send_parts, formats::specs::Format::pair, formats::specs::Format::through))]
fn raw_send_at(text: &[u8], cursor: Cursor, pred: u16) -> Result<(Instruction, Cursor), Stop>
    ensures { told result ≡ (raw_send pred).read text.now cursor.at }
{
    let (modifiers, cursor) = line_parts::send_ending_at(text, cursor)?;
    let (exec, cursor) = control_texts::exec_at(text, cursor)?;
    let (message, cursor) = line_parts::message_at(text, cursor)?;
    let ((descriptor, (source, destination)), cursor) = line_parts::scalar_and_raws_at(
        text, cursor,
    )?;
    let raw_send = RawSend {
        modifiers,
        control: Control { exec, pred },
        message,
        descriptor,
        source,
        destination,
    };
    Ok((Instruction::RawSend(raw_send), cursor))
}

// What stands behind the name of that number.
#[tactic(auto, unfolding(crate::specs::Mirror::Line::body))]
fn body_at(text: &[u8], cursor: Cursor, pred: u16, name: u64) -> Result<(Instruction, Cursor), Stop>
    ensures { told result ≡ (body pred name).read text.now cursor.at }
{
    // by the name's number, as `body` is
    match name {
        0 => shl_at(text, cursor, pred),
        1 => gather_at(text, cursor, pred),
        2 => scatter_at(text, cursor, pred),
        _ => raw_send_at(text, cursor, pred),
    }
}

// The line that begins at a position of a text.
#[tactic(auto, using(crate::proofs::ReadLaws::third_alone), unfolding(crate::specs::Mirror::Line::line, crate::specs::Mirror::Line::named, formats::specs::Format::pair, formats::specs::Format::through))]
fn line_at(text: &[u8], cursor: Cursor) -> Result<(Instruction, Cursor), Stop>
    ensures { told result ≡ line.read text.now cursor.at }
{
    let (pred, cursor) = control_texts::predicate_at(text, cursor)?;
    let (name, cursor) = cursor.one_of(
        text,
        b"SHL |GATHER_SCALED.|SVM_SCATTER4_SCALED.|raw_send|",
    )?;
    body_at(text, cursor, pred, name)
}

// The column of a position.
fn column_of(at: usize) -> usize
    requires { at ≤ 128 }
    ensures { result ≡ suc at }
{
    at + 1
}

// The instruction whose line a text is.
#[tactic(auto, using(crate::proofs::BoundLaws::end_bounds), unfolding(crate::specs::Reading::reading_of, formats::specs::Whole::whole))]
pub fn read(text: &[u8]) -> Result<Instruction, NoLine>
    ensures { told_text result ≡ reading_of text.now }
{
    match line_at(text, Cursor { at: 0 }) {
        Ok((instruction, cursor)) if cursor.at == text.len() => Ok(instruction),
        Ok((_, Cursor { at })) | Err(Stop { at }) => Err(NoLine {
            column: column_of(at),
        }),
    }
}
