// What stands before the operands in an instruction's line, read from a text: predicate, exec byte.

#![tactic(auto)]

ghost use Rattle.std.specs.Prelude.{◌≡◌, ◌&&◌, ◌+◌, ◌*◌, ◌-◌, ◌%◌, ◌≤◌, ◌<◌, eqb};
ghost use Rattle.formats.specs.Told.{told};
ghost use Rattle.control_texts.specs.Mirror.Predicate.{ending, predicate};
ghost use Rattle.control_texts.specs.Mirror.Exec.{mask, exec, scatter_exec};

use formats::{Base, Cursor, Stop};

// Whether a predicate that opens so and has this id would be the word 0, if it ended at once.
pub fn is_p0(opening: u64, id: u64) -> bool
    ensures { result ≡ (eqb opening 1 && eqb id 0) }
{
    opening == 1 && id == 0
}

// What ends a predicate.
#[tactic(auto, unfolding(crate::specs::Mirror::Predicate::ending))]
fn ending_at(text: &[u8], cursor: Cursor, opening: u64, id: u64) -> Result<(u64, Cursor), Stop>
    ensures { told result ≡ (ending opening id).read text.now cursor.at }
{
    if is_p0(opening, id) {
        cursor.one_of(text, b".any) |.all) |")
    } else {
        cursor.one_of(text, b".any) |.all) |) |")
    }
}

// Here and below `as`, proved to keep the number: a `try_from` would have an Err that no value reaches.
fn predicate_word(opening: u64, id: u64, end: u64) -> u16
    requires { (1 ≤ opening) × (opening < 3) × (id ≤ 4095) × (end < 3) }
    ensures { result ≡ (opening - 1) * 32768 + (end + 1) % 3 * 8192 + id }
{
    ((opening - 1) * 32768 + (end + 1) % 3 * 8192 + id) as u16
}

#[tactic(auto, using(crate::proofs::BoundLaws::predicate_bounds), unfolding(crate::specs::Mirror::Predicate::predicate, crate::specs::Mirror::Predicate::id_and_ending, formats::specs::Format::pair, formats::specs::Format::through, formats::specs::Format::blank))]
pub fn predicate_at(text: &[u8], cursor: Cursor) -> Result<(u16, Cursor), Stop>
    ensures { told result ≡ predicate.read text.now cursor.at }
{
    let (opening, cursor) = cursor.one_of(text, b"|(P|(!P|")?;
    if opening == 0 {
        return Ok((0, cursor));
    }
    let (id, cursor) = cursor.number(text, Base::Decimal, 0, 4095)?;
    let (end, cursor) = ending_at(text, cursor, opening, id)?;
    Ok((predicate_word(opening, id, end), cursor))
}

// The mask of an exec byte: its high four bits.
#[tactic(auto, using(crate::proofs::BoundLaws::mask_bounds), unfolding(crate::specs::Mirror::Exec::mask, crate::specs::Mirror::Exec::mask_parts, formats::specs::Words::before, formats::specs::Format::pair, formats::specs::Format::through))]
fn mask_at(text: &[u8], cursor: Cursor) -> Result<(u64, Cursor), Stop>
    ensures { told result ≡ mask.read text.now cursor.at }
{
    let (_, cursor) = cursor.one_of(text, b"(M|")?;
    let (number, cursor) = cursor.number(text, Base::Decimal, 1, 8)?;
    let (end, cursor) = cursor.one_of(text, b",|_NM,|")?;
    Ok((number - 1 + 8 * end, cursor))
}

// The exec byte of a mask and the word `size` of a table that begins with size code `first`.
fn exec_byte(mask: u64, first: u64, size: u64) -> u8
    requires { (mask < 16) × (first + size < 6) }
    ensures { result ≡ mask * 16 + (first + size) }
{
    (mask * 16 + (first + size)) as u8
}

#[tactic(auto, unfolding(crate::specs::Mirror::Exec::exec, crate::specs::Mirror::Exec::exec_from, formats::specs::Format::pair, formats::specs::Format::through))]
pub fn exec_at(text: &[u8], cursor: Cursor) -> Result<(u8, Cursor), Stop>
    ensures { told result ≡ exec.read text.now cursor.at }
{
    let (mask, cursor) = mask_at(text, cursor)?;
    let (size, cursor) = cursor.one_of(text, b"1) |2) |4) |8) |16) |32) |")?;
    Ok((exec_byte(mask, 0, size), cursor))
}

// Kept beside `exec_at`: one function over both tables is no plainer, it would owe a bound on the words of each.
#[tactic(auto, using(crate::proofs::BoundLaws::exec_bounds), unfolding(crate::specs::Mirror::Exec::scatter_exec, crate::specs::Mirror::Exec::exec_from, formats::specs::Format::pair, formats::specs::Format::through))]
pub fn scatter_exec_at(text: &[u8], cursor: Cursor) -> Result<(u8, Cursor), Stop>
    ensures { told result ≡ scatter_exec.read text.now cursor.at }
{
    let (mask, cursor) = mask_at(text, cursor)?;
    let (size, cursor) = cursor.one_of(text, b"8) |16) |")?;
    Ok((exec_byte(mask, 3, size), cursor))
}
