// An input, read block by block and fed as a case file.

#![tactic(auto)]

ghost use Rattle.std.specs.Prelude.{◌≡◌, length};
ghost use Rattle.tally.specs.Mirror.Lent.{contents_of, tables_of, SameContents, SameTables};
ghost use Rattle.feeding.specs.Mirror.Feeding.{machine, fresh};
ghost use Rattle.input.specs.Answers.{answer_of, met_end};
ghost use Rattle.input.specs.Calls.{call, bytes_of, Moved};
ghost use Rattle.input.specs.Mirror.Reads.{has_ended, stopped_at, Reads, ReadsKnown};

use feeding::State;
use std::io;
use std::io::Read;
use tally::{ContentBuffers, TableBuffers};

// What a read answers: a number of bytes, the end of the input, or that it failed. An enum of its own: what is said of calls goes by its cases
// (`on_answer`).
#[derive(Clone, Copy)]
enum Answer {
    Bytes(usize),
    End,
    Failed,
}

#[tactic(auto, unfolding(crate::specs::Answers::answer_of))]
fn answer_of(got: &io::Result<usize>) -> Answer
    ensures { result ≡ answer_of got.now }
{
    match got {
        Err(_) => Answer::Failed,
        Ok(0) => Answer::End,
        Ok(count) => Answer::Bytes(*count),
    }
}

// The bytes that it gave, of the block as it left it.
#[tactic(auto, unfolding(crate::specs::Calls::bytes_of))]
fn bytes_of<'a>(got: &io::Result<usize>, block: &'a [u8]) -> &'a [u8]
    requires { Moved (length block.now) got.now }
    ensures { result.now ≡ bytes_of (call got.now block.now) }
{
    match answer_of(got) {
        Answer::Bytes(count) => &block[..count],
        Answer::End | Answer::Failed => &block[..0],
    }
}

// Reading stopped before the input's end: what was read before.
#[derive(Clone, Copy)]
pub struct Unended {
    pub state: State,
}

// Where reading stops, by what the last read answers: only 0 bytes are the input's end.
#[tactic(auto, unfolding(crate::specs::Answers::met_end))]
fn stopped(got: &io::Result<usize>, state: State) -> Result<State, Unended>
    ensures end { has_ended result ≡ met_end got.now }
    ensures state { stopped_at result ≡ state }
{
    match answer_of(got) {
        Answer::End => Ok(state),
        Answer::Bytes(_) | Answer::Failed => Err(Unended { state }),
    }
}

// Block by block to the input's end or to a read that fails.
pub fn read_all<R: Read>(
    reader: &mut R,
    line: &mut [u8],
    contents: &mut ContentBuffers<'_>,
    tables: &mut TableBuffers<'_>,
) -> Result<State, Unended>
    ensures some_calls { Reads (has_ended result) (machine line.old fresh (contents_of contents.old) (tables_of tables.old)) (machine line.new (stopped_at result) (contents_of contents.new) (tables_of tables.new)) }
    ensures known_bytes { ReadsKnown (R.remaining reader.old) (R.remaining reader.new) (has_ended result) (machine line.old fresh (contents_of contents.old) (tables_of tables.old)) (machine line.new (stopped_at result) (contents_of contents.new) (tables_of tables.new)) }
    ensures contents { SameContents contents.old contents.new }
    ensures tables { SameTables tables.old tables.new }
{
    let mut block = [0u8; 65536];
    let mut state = State::new();
    for _ in 0..u64::MAX {
        let got = reader.read(&mut block);
        let bytes = bytes_of(&got, &block);
        if bytes.len() == 0 {
            return stopped(&got, state);
        }
        state = feeding::feed(bytes, line, contents, tables, state);
    }
    Err(Unended { state })
}
