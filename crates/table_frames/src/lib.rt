// The frames that repeat: a variable, a predicate and a surface, each put into the next place of its table.

#![tactic(auto)]

ghost use Rattle.std.specs.Prelude.{◌≡◌};
ghost use Rattle.hex_text.specs.Bytes.{hex_bytes};
ghost use Rattle.table_frames.specs.Mirror.Repeated.{variables, variable_read, predicates, predicate_sized, predicate_count, predicate_read, surfaces, surface_read};

use tally::{Case, Kind};

// The elements of a predicate whose frame has no count byte.
const OLD_COUNT: u8 = 32;

// The slices one by one and no TableBuffers: each contract would owe besides that the other tables stay.
#[tactic(auto, unfolding(crate::specs::Mirror::Repeated::variable_read))]
pub fn put_variable(
    line: &[u8],
    types: &mut [u8],
    starts: &mut [u16],
    counts: &mut [u16],
    case: Case,
) -> Case
    ensures { variables result types.new starts.new counts.new ≡ variable_read (hex_bytes line.now) (variables case types.old starts.old counts.old) }
{
    if hex_text::content_length(line, 1) != 5 {
        return case.bad_line();
    }
    let place = case.met(Kind::Variable);
    let has_room = place < types.len() && place < starts.len() && place < counts.len();
    if !has_room {
        return case.good_line(false);
    }
    types[place] = hex_text::byte(line, 1);
    starts[place] = hex_text::word(line, 2);
    counts[place] = hex_text::word(line, 4);
    case.good_line(true).with_met(Kind::Variable, place + 1)
}

// Four bytes of bits, and behind them there may be a count.
#[tactic(auto, unfolding(crate::specs::Mirror::Repeated::predicate_sized))]
fn predicate_sized(line: &[u8]) -> bool
    ensures { result ≡ predicate_sized (hex_bytes line.now) }
{
    let size = hex_text::content_length(line, 1);
    size == 4 || size == 5
}

#[tactic(auto, unfolding(crate::specs::Mirror::Repeated::predicate_count))]
fn predicate_count(line: &[u8]) -> u8
    ensures { result ≡ predicate_count (hex_bytes line.now) }
{
    if hex_text::content_length(line, 1) == 5 {
        hex_text::byte(line, 5)
    } else {
        OLD_COUNT
    }
}

#[tactic(auto, unfolding(crate::specs::Mirror::Repeated::predicate_read))]
pub fn put_predicate(line: &[u8], bits: &mut [u32], counts: &mut [u8], case: Case) -> Case
    ensures { predicates result bits.new counts.new ≡ predicate_read (hex_bytes line.now) (predicates case bits.old counts.old) }
{
    if !predicate_sized(line) {
        return case.bad_line();
    }
    let place = case.met(Kind::Predicate);
    let has_room = place < bits.len() && place < counts.len();
    if !has_room {
        return case.good_line(false);
    }
    bits[place] = hex_text::dword(line, 1);
    counts[place] = predicate_count(line);
    case.good_line(true).with_met(Kind::Predicate, place + 1)
}

#[tactic(auto, using(crate::proofs::Room::room_for), unfolding(crate::specs::Mirror::Repeated::surface_read, hex_text::specs::Storing::stored))]
pub fn put_surface(line: &[u8], bytes: &mut [u8], lengths: &mut [u16], case: Case) -> Case
    ensures { surfaces result bytes.new lengths.new ≡ surface_read (hex_bytes line.now) (surfaces case bytes.old lengths.old) }
{
    let size = hex_text::content_length(line, 1);
    let place = case.met(Kind::Surface);
    if size > 1024 || place >= lengths.len() {
        return case.good_line(false);
    }
    let at = case.length(Kind::Surface);
    if !hex_text::store(line, 1, bytes, at) {
        return case.good_line(false);
    }
    // `as`: the number is 1,024 at most, and a `try_from` would have an Err that no value reaches
    lengths[place] = size as u16;
    case.good_line(true)
        .with_met(Kind::Surface, place + 1)
        .with_length(Kind::Surface, at + size)
}
