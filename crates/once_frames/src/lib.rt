// The frames that come once at most: registers, memory, mask, kernel, taint and the size of a register, each put into its own buffer or constant.

#![tactic(auto)]

ghost use Rattle.std.specs.Prelude.{◌≡◌, drop};
ghost use Rattle.hex_text.specs.Bytes.{hex_bytes};
ghost use Rattle.tally.specs.Mirror.Kinds.{code_of};
ghost use Rattle.tally.specs.Mirror.Lent.{contents_of, SameContents};
ghost use Rattle.once_frames.specs.Mirror.Once.{kept, content_read, memory_read, mask_read, register_size_read, once, once_read};

use tally::{Case, ContentBuffers, Kind};

// The line's bytes from byte `from` on, to the buffer's start.
#[tactic(auto, unfolding(crate::specs::Mirror::Once::content_read))]
fn put_content(line: &[u8], from: usize, kind: Kind, buffer: &mut [u8], case: Case) -> Case
    ensures { kept result buffer.new ≡ content_read (code_of kind) (drop from (hex_bytes line.now)) (kept case buffer.old) }
{
    let fits = hex_text::store(line, from, buffer, 0);
    case.good_line(fits)
        .with_met(kind, 1)
        .with_length(kind, hex_text::content_length(line, from))
}

#[tactic(auto, unfolding(crate::specs::Mirror::Once::memory_read))]
fn put_memory(line: &[u8], memory: &mut [u8], case: Case) -> Case
    ensures { kept result memory.new ≡ memory_read (hex_bytes line.now) (kept case memory.old) }
{
    if hex_text::content_length(line, 1) < 8 {
        return case.bad_line();
    }
    put_content(line, 9, Kind::Memory, memory, case).with_base(hex_text::qword(line, 1))
}

#[tactic(auto, unfolding(crate::specs::Mirror::Once::mask_read))]
fn put_mask(line: &[u8], case: Case) -> Case
    ensures { result ≡ mask_read (hex_bytes line.now) case }
{
    if hex_text::content_length(line, 1) != 4 {
        return case.bad_line();
    }
    case.good_line(true)
        .with_met(Kind::Mask, 1)
        .with_mask(hex_text::dword(line, 1))
}

// The byte is stored as it stands: a run refuses the sizes that no card has.
#[tactic(auto, unfolding(crate::specs::Mirror::Once::register_size_read))]
fn put_register_size(line: &[u8], case: Case) -> Case
    ensures { result ≡ register_size_read (hex_bytes line.now) case }
{
    if hex_text::content_length(line, 1) != 1 {
        return case.bad_line();
    }
    case.good_line(true)
        .with_met(Kind::RegisterSize, 1)
        .with_register_size(hex_text::byte(line, 1))
}

// A frame that begins with a byte, of a kind that may come once.
// By the byte: `once_read` answers for any, and one that is no kind makes a bad line.
#[tactic(auto, unfolding(crate::specs::Mirror::Once::once_read))]
pub fn take_once(line: &[u8], code: u8, contents: &mut ContentBuffers<'_>, case: Case) -> Case
    ensures frame { once result (contents_of contents.new) ≡ once_read code (hex_bytes line.now) (once case (contents_of contents.old)) }
    ensures loans { SameContents contents.old contents.new }
{
    if 0 < case.met_at(code) {
        return case.bad_line();
    }
    match Kind::try_from(code) {
        Ok(Kind::Registers) => put_content(line, 1, Kind::Registers, contents.registers, case),
        Ok(Kind::Memory) => put_memory(line, contents.memory, case),
        Ok(Kind::Mask) => put_mask(line, case),
        Ok(Kind::Kernel) => put_content(line, 1, Kind::Kernel, contents.kernel, case),
        Ok(Kind::RegisterTaint) => {
            put_content(line, 1, Kind::RegisterTaint, contents.register_taint, case)
        }
        Ok(Kind::SurfaceTaint) => {
            put_content(line, 1, Kind::SurfaceTaint, contents.surface_taint, case)
        }
        Ok(Kind::MemoryTaint) => {
            put_content(line, 1, Kind::MemoryTaint, contents.memory_taint, case)
        }
        Ok(Kind::RegisterSize) => put_register_size(line, case),
        _ => case.bad_line(),
    }
}
