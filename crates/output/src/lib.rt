// The bench's output: lines of lower-case hex, written into a buffer of the caller's.

#![tactic(auto)]

ghost use Rattle.std.specs.Prelude.{◌≡◌, [], ◌∷◌, ◌++◌, ◌+◌, ◌*◌, ◌≤◌, length};
ghost use Rattle.hex_text.specs.Bytes.{hex_of};
ghost use Rattle.hex_text.specs.Storing.{placed};
ghost use Rattle.output.specs.Mirror.Page.{page, written};
ghost use Rattle.output.specs.Mirror.Lent.{lines_of};
ghost use Rattle.output.specs.Output.{answer_line, content_line, memory_line, output_bytes};

// What a run left in the caller's buffers: the registers, the memory with its base, and the taint of both.
#[derive(Clone, Copy)]
pub struct Contents<'a> {
    pub base: u64,
    pub registers: &'a [u8],
    pub memory: &'a [u8],
    pub register_taint: &'a [u8],
    pub memory_taint: &'a [u8],
}

// A character to place `at`, if there is one, and the place behind it. `format_writers` has its own: there a place past the buffer's end becomes
// the end (`wrote`), here it stays (`page`).
#[tactic(auto, unfolding(crate::specs::Mirror::Page::written, crate::specs::Mirror::Page::pushed))]
fn put(out: &mut [u8], at: usize, character: u8) -> usize
    ensures { page out.new result ≡ written (character ∷ []) (page out.old at) }
{
    if at < out.len() {
        out[at] = character;
        at + 1
    } else {
        at
    }
}

// Here and below buffer and place go one by one, as `page` and `written` (specs/Mirror/Page.antt) take them; of a struct lent `&mut` each contract
// would owe besides that the buffer stays the caller's.
fn put_byte(out: &mut [u8], at: usize, byte: u8) -> usize
    ensures { page out.new result ≡ written (hex_of (byte ∷ [])) (page out.old at) }
{
    let middle = put(out, at, hex_text::character(byte / 16));
    put(out, middle, hex_text::character(byte % 16))
}

#[tactic(auto, using(crate::proofs::LineLaws::bytes_none, crate::proofs::LineLaws::bytes_more))]
fn put_each(out: &mut [u8], mut at: usize, bytes: &[u8]) -> usize
    ensures { page out.new result ≡ written (hex_of bytes.now) (page out.old at) }
{
    for byte in bytes {
        at = put_byte(out, at, *byte);
    }
    at
}

// The digits of bytes for which there is room: a loop that asks nothing takes several bytes at a time.
#[tactic(auto, using(crate::proofs::PlaceLaws::place_none, crate::proofs::PlaceLaws::place_turn, crate::proofs::PlaceLaws::place_over))]
fn place(out: &mut [u8], at: usize, bytes: &[u8])
    requires { at + 2 * length bytes.now ≤ length out.old }
    ensures { out.new ≡ placed out.old at (hex_of bytes.now) }
{
    for (i, byte) in bytes.iter().enumerate() {
        out[at + 2 * i] = hex_text::character(*byte / 16);
        out[at + 2 * i + 1] = hex_text::character(*byte % 16);
    }
}

fn put_bytes(out: &mut [u8], at: usize, bytes: &[u8]) -> usize
    ensures { page out.new result ≡ written (hex_of bytes.now) (page out.old at) }
{
    if at > out.len() || bytes.len() > (out.len() - at) / 2 {
        return put_each(out, at, bytes);
    }
    place(out, at, bytes);
    at + 2 * bytes.len()
}

// The 40 line.
// A number and no Refusal: 14, and the 13 of a case that is not run, are refusals of no run.
pub fn put_answer(out: &mut [u8], at: usize, number: u8, completed: u16, position: u32) -> usize
    ensures { page out.new result ≡ written (answer_line number completed position) (page out.old at) }
{
    let first = put_bytes(out, at, &[0x40, number]);
    let second = put_bytes(out, first, &completed.to_le_bytes());
    let last = put_bytes(out, second, &position.to_le_bytes());
    put(out, last, b'\n')
}

// The kind's byte, as in `content_line`.
fn put_content(out: &mut [u8], at: usize, kind: u8, bytes: &[u8]) -> usize
    ensures { page out.new result ≡ written (content_line kind bytes.now) (page out.old at) }
{
    let first = put_byte(out, at, kind);
    let last = put_bytes(out, first, bytes);
    put(out, last, b'\n')
}

fn put_memory(out: &mut [u8], at: usize, base: u64, memory: &[u8]) -> usize
    ensures { page out.new result ≡ written (memory_line base memory.now) (page out.old at) }
{
    let first = put_byte(out, at, 5);
    let second = put_bytes(out, first, &base.to_le_bytes());
    let last = put_bytes(out, second, memory);
    put(out, last, b'\n')
}

fn put_buffers(out: &mut [u8], at: usize, contents: Contents<'_>) -> usize
    ensures { page out.new result ≡ written (lines_of contents.entry) (page out.old at) }
{
    let first = put_content(out, at, 1, contents.registers);
    let second = put_memory(out, first, contents.base, contents.memory);
    let third = put_content(out, second, 8, contents.register_taint);
    put_content(out, third, 10, contents.memory_taint)
}

// The whole output, to the buffer's start, and how many bytes it has; what does not fit is lost.
#[tactic(auto, using(crate::proofs::WholeLaws::answer_only, crate::proofs::WholeLaws::answer_buffers))]
pub fn write(
    out: &mut [u8],
    number: u8,
    completed: u16,
    position: u32,
    contents: Contents<'_>,
) -> usize
    ensures { page out.new result ≡ written (output_bytes number completed position (lines_of contents.entry)) (page out.old 0) }
{
    let at = put_answer(out, 0, number, completed, position);
    if matches!(number, 13 | 14) {
        return at;
    }
    put_buffers(out, at, contents)
}
