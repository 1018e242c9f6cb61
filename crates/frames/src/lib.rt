// A case file's lines: each is a frame, its first byte the kind, and goes into the caller's buffers.

#![tactic(auto)]

ghost use Rattle.std.specs.Prelude.{◌≡◌};
ghost use Rattle.tally.specs.Mirror.Reading.{reading};
ghost use Rattle.tally.specs.Mirror.Lent.{contents_of, tables_of, SameContents, SameTables};
ghost use Rattle.frames.specs.Mirror.Frames.{line_read};

use tally::{Case, ContentBuffers, Kind, TableBuffers};

// One line's characters. After the first bad line nothing counts.
// Two structs side by side: from structs within a struct whoever lent the slices would not get them back.
#[tactic(auto, unfolding(crate::specs::Mirror::Frames::line_read, crate::specs::Mirror::Frames::frame_read))]
pub fn take_line(
    line: &[u8],
    contents: &mut ContentBuffers<'_>,
    tables: &mut TableBuffers<'_>,
    case: Case,
) -> Case
    ensures reading { reading result (contents_of contents.new) (tables_of tables.new) ≡ line_read line.now (reading case (contents_of contents.old) (tables_of tables.old)) }
    ensures contents { SameContents contents.old contents.new }
    ensures tables { SameTables tables.old tables.new }
{
    if 0 < case.bad {
        return case;
    }
    if !hex_text::is_hex(line) {
        return case.bad_line();
    }
    let code = hex_text::byte(line, 0);
    match Kind::try_from(code) {
        Ok(Kind::Variable) => {
            table_frames::put_variable(line, tables.types, tables.starts, tables.counts, case)
        }
        Ok(Kind::Predicate) => table_frames::put_predicate(
            line,
            tables.predicate_bits,
            tables.predicate_counts,
            case,
        ),
        Ok(Kind::Surface) => {
            table_frames::put_surface(line, tables.surface_bytes, tables.surface_lengths, case)
        }
        _ => once_frames::take_once(line, code, contents, case),
    }
}
