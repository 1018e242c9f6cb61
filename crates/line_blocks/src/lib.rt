// A text that comes in blocks, cut into lines: the line begun stands in a buffer of the caller's until it is whole.

#![tactic(auto)]

ghost use Rattle.std.specs.Prelude.{◌≡◌, ◌==◌, false, cond, [], ◌+◌, take, drop, position};
ghost use Rattle.line_blocks.specs.Mirror.Rows.{row, is_begun, pushed, all_pushed, line_length};

// The first elements of a buffer; all of them if there are fewer.
pub fn first<T>(buffer: &[T], count: usize) -> &[T]
    ensures { result.now ≡ take count buffer.now }
{
    buffer.get(..count).unwrap_or(buffer)
}

// Of the line begun, how many characters stand in the line buffer, and whether there were more.
#[derive(Clone, Copy)]
pub struct Begun {
    pub used: usize,
    pub long: bool,
}

impl Begun {
    // No character of the next line.
    pub fn nothing() -> Begun
        ensures { result ≡ record { used = 0; long = false } }
    {
        Begun {
            used: 0,
            long: false,
        }
    }

    // Whether a line is begun that has no end yet.
    #[tactic(auto, unfolding(crate::specs::Mirror::Rows::is_begun))]
    pub fn is_begun(self) -> bool
        ensures { result ≡ is_begun self.used self.long }
    {
        self.long || 0 < self.used
    }
}

// One more character of the line begun.
#[tactic(auto, unfolding(crate::specs::Mirror::Rows::pushed))]
fn push(line: &mut [u8], byte: u8, begun: Begun) -> Begun
    ensures { row line.new result.used result.long ≡ pushed byte (row line.old begun.used begun.long) }
{
    if begun.used < line.len() {
        line[begun.used] = byte;
        Begun {
            used: begun.used + 1,
            ..begun
        }
    } else {
        Begun {
            long: true,
            ..begun
        }
    }
}

// The same of several characters.
#[tactic(auto, using(crate::proofs::PushLaws::each_none, crate::proofs::PushLaws::each_more))]
fn push_each(line: &mut [u8], characters: &[u8], mut begun: Begun) -> Begun
    ensures { row line.new result.used result.long ≡ all_pushed characters.now (row line.old begun.used begun.long) }
{
    for byte in characters {
        begun = push(line, *byte, begun);
    }
    begun
}

// Several characters at once: a copy where there is room for all of them.
#[tactic(auto, using(crate::proofs::PushLaws::copied_pushed))]
pub fn push_all(line: &mut [u8], characters: &[u8], begun: Begun) -> Begun
    ensures { row line.new result.used result.long ≡ all_pushed characters.now (row line.old begun.used begun.long) }
{
    if begun.used > line.len() || characters.len() > line.len() - begun.used {
        return push_each(line, characters, begun);
    }
    let end = begun.used + characters.len();
    line[begun.used..end].copy_from_slice(characters);
    Begun { used: end, ..begun }
}

// What the end of a text is read as: as the end of the line that is begun, or as nothing.
pub fn last_end(end: &[u8], begun: Begun) -> &[u8]
    ensures { result.now ≡ cond (is_begun begun.used begun.long) end.now [] }
{
    if begun.is_begun() { end } else { &end[..0] }
}

// The place of the first 0x0a of a text. As `formats::word_end` for another character: the clauses are over `line_length` and `word_of`, and one
// function would owe both a lemma.
fn first_end(text: &[u8]) -> Option<usize>
    ensures { result ≡ position (λ b. b == 10) text.now }
{
    text.iter().position(|byte| *byte == b'\n')
}

// How many characters stand before the first 0x0a; all of them if there is none.
fn line_length(text: &[u8]) -> usize
    ensures { result ≡ line_length text.now }
{
    first_end(text).unwrap_or(text.len())
}

// The place of the next 0x0a in a block; the block's end if there is none, and `from` past it.
#[tactic(auto, using(crate::proofs::PartLaws::line_inside, crate::proofs::PartLaws::end_past))]
pub fn line_end(block: &[u8], from: usize) -> usize
    ensures { result ≡ from + line_length (drop from block.now) }
{
    match block.get(from..) {
        Some(rest) => from + line_length(rest),
        None => from,
    }
}
