// Parts of an instruction's line, read from a text: what the lines of several instructions share, and what a gather or a send has besides.

#![tactic(auto)]

ghost use Rattle.std.specs.Prelude.{◌≡◌};
ghost use Rattle.formats.specs.Words.{table};
ghost use Rattle.formats.specs.Told.{told, told_as, ended_by};
ghost use Rattle.line_parts.specs.Mirror.Braces.{scale_behind, gather_braces, scatter_braces};
ghost use Rattle.line_parts.specs.Mirror.Parts.{space, scalar_and_raws, blocks, surface, send_endings, message};
ghost use Rattle.line_parts.specs.Mirror.Pieces.{numbers_of};

use field_groups::Message;
use formats::{Cursor, Stop};
use operand_fields::{Operand, Raw};

// Scale behind a Block_size: not 0 behind a 0.
#[tactic(auto, unfolding(crate::specs::Mirror::Braces::scale_behind))]
fn scale_at(text: &[u8], cursor: Cursor, size: u64) -> Result<(u64, Cursor), Stop>
    ensures { told result ≡ (scale_behind size).read text.now cursor.at }
{
    text_parts::decimal_at(text, cursor, u64::from(size == 0), 65535, b"}|")
}

// Block_size and Scale.
// Here and below `as`, proved to keep the number: a `try_from` would have an Err that no value reaches.
#[tactic(auto, using(crate::proofs::BoundLaws::gather_bounds), unfolding(crate::specs::Mirror::Braces::gather_braces, crate::specs::Mirror::Braces::size_and_scale, formats::specs::Format::pair, formats::specs::Format::through, formats::specs::Format::blank))]
pub fn gather_braces_at(text: &[u8], cursor: Cursor) -> Result<((u8, u16), Cursor), Stop>
    ensures { told result ≡ gather_braces.read text.now cursor.at }
{
    let (braced, cursor) = cursor.one_of(text, b"| {|")?;
    if braced == 0 {
        return Ok(((0, 0), cursor));
    }
    let (size, cursor) = text_parts::decimal_at(text, cursor, 0, 255, b",|")?;
    let (scale, cursor) = scale_at(text, cursor, size)?;
    Ok(((size as u8, scale as u16), cursor))
}

#[tactic(auto, using(crate::proofs::BoundLaws::scatter_bounds), unfolding(crate::specs::Mirror::Braces::scatter_braces, crate::specs::Mirror::Braces::scale_alone, formats::specs::Format::pair, formats::specs::Format::through, formats::specs::Format::blank))]
pub fn scatter_braces_at(text: &[u8], cursor: Cursor) -> Result<(u16, Cursor), Stop>
    ensures { told result ≡ scatter_braces.read text.now cursor.at }
{
    let (braced, cursor) = cursor.one_of(text, b"| {|")?;
    if braced == 0 {
        return Ok((0, cursor));
    }
    let (scale, cursor) = text_parts::decimal_at(text, cursor, 1, 65535, b"}|")?;
    Ok((scale as u16, cursor))
}

// What was read, with the space that follows it.
pub fn spaced<T: Copy>(read: Result<(T, Cursor), Stop>, text: &[u8]) -> Result<(T, Cursor), Stop>
    ensures { told result ≡ ended_by (told read) text.now space }
{
    formats::ended(read, text, b" |")
}

#[tactic(auto, using(formats::proofs::AroundLaws::after_read), unfolding(crate::specs::Mirror::Parts::scalar_and_raws, formats::specs::Format::pair))]
pub fn scalar_and_raws_at(
    text: &[u8],
    cursor: Cursor,
) -> Result<((Operand, (Raw, Raw)), Cursor), Stop>
    ensures { told result ≡ scalar_and_raws.read text.now cursor.at }
{
    let (scalar, cursor) = spaced(operand_texts::source_at(text, cursor), text)?;
    let (first, cursor) = spaced(text_parts::raw_at(text, cursor), text)?;
    let (second, cursor) = text_parts::raw_at(text, cursor)?;
    Ok(((scalar, (first, second)), cursor))
}

// A gather's `2 `: the code of the bytes at each address.
#[tactic(auto, using(crate::proofs::BoundLaws::word_bounds))]
pub fn blocks_at(text: &[u8], cursor: Cursor) -> Result<(u8, Cursor), Stop>
    ensures { told result ≡ (table blocks).read text.now cursor.at }
{
    let (n, cursor) = cursor.one_of(text, b"1 |2 |4 |")?;
    Ok((n as u8, cursor))
}

// A gather's `T1 `.
#[tactic(auto, using(crate::proofs::BoundLaws::surface_bounds), unfolding(crate::specs::Mirror::Parts::surface, formats::specs::Words::before, formats::specs::Format::pair, formats::specs::Format::through))]
pub fn surface_at(text: &[u8], cursor: Cursor) -> Result<(u8, Cursor), Stop>
    ensures { told result ≡ surface.read text.now cursor.at }
{
    let (_, cursor) = cursor.one_of(text, b"T|")?;
    let (n, cursor) = text_parts::decimal_at(text, cursor, 0, 255, b" |")?;
    Ok((n as u8, cursor))
}

// A send's ` ` or `c `: its Modifiers.
#[tactic(auto, using(crate::proofs::BoundLaws::word_bounds))]
pub fn send_ending_at(text: &[u8], cursor: Cursor) -> Result<(u8, Cursor), Stop>
    ensures { told result ≡ (table send_endings).read text.now cursor.at }
{
    let (n, cursor) = cursor.one_of(text, b" |c |")?;
    Ok((n as u8, cursor))
}

// ExMsgDesc, NumSrc and NumDst.
#[tactic(auto, using(crate::proofs::BoundLaws::message_bounds), unfolding(crate::specs::Mirror::Parts::message, formats::specs::Format::pair))]
pub fn message_at(text: &[u8], cursor: Cursor) -> Result<(Message, Cursor), Stop>
    ensures { told_as numbers_of result ≡ message.read text.now cursor.at }
{
    let (extended, cursor) = text_parts::hexadecimal_at(text, cursor, 4294967295, b" |")?;
    let (sources, cursor) = text_parts::decimal_at(text, cursor, 1, 15, b" |")?;
    let (destinations, cursor) = text_parts::decimal_at(text, cursor, 0, 16, b" |")?;
    let message = Message {
        extended: extended as u32,
        num_src: sources as u8,
        num_dst: destinations as u8,
    };
    Ok((message, cursor))
}
