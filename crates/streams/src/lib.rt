// What programs share that read standard input and write standard output.

#![tactic(auto)]

ghost use Rattle.std.specs.Prelude.{◌≡◌, ◌+◌, ◌≤◌, ◌<◌, ℕ, min, length, take, drop, IfOk, OnErr};
ghost use Rattle.std.specs.Io.KnownBytes.{Consumes, IsAtEnd};
ghost use Rattle.line_blocks.specs.Mirror.Rows.{line_length};

use std::io::Read;
use std::{fmt, io};

// Why a program ends with work undone, in the words that it says.
#[derive(Clone, Copy)]
pub enum Failure {
    Unread,
    Unwritten,
}

impl fmt::Display for Failure {
    ghost use Rattle.std.specs.Prelude.{Some};
    ghost use Rattle.streams.specs.Words.{failure_text};

    ghost output = { λ failure. Some (failure_text failure) };

    fn fmt<W: fmt::Write>(&self, f: &mut fmt::Formatter<W>) -> fmt::Result {
        match self {
            Failure::Unread => write!(f, "standard input cannot be read"),
            Failure::Unwritten => write!(f, "standard output cannot be written"),
        }
    }
}

// Reads until the buffer is full or the input ends, and tells how many bytes stand at the buffer's start. A read that fails ends it with that
// read's error; what was read before stands at the buffer's start all the same.
pub fn read_full<R: Read>(reader: &mut R, buffer: &mut [u8]) -> io::Result<usize>
    ensures count { IfOk result (λ n. n ≤ length buffer.new) }
    ensures bytes { IfOk result (λ n. Consumes (R.remaining reader.old) (R.remaining reader.new) (take n buffer.new)) }
    ensures end { IfOk result (λ n. n < length buffer.new → IsAtEnd (R.remaining reader.new)) }
    ensures none_lost { OnErr result ((n : ℕ) × (n ≤ length buffer.new) × Consumes (R.remaining reader.old) (R.remaining reader.new) (take n buffer.new)) }
{
    // std's `read_exact` tells little of what was read before a failure, and `none_lost` all of it
    let mut done = 0;
    while done < buffer.len() {
        let count = reader.read(&mut buffer[done..])?;
        if count == 0 {
            break;
        }
        done += count;
    }
    Ok(done)
}

// What is done with the blocks of an input, one after the other: each step goes on from what the step before it gave.
pub trait BlockStep {
    type State: Copy;

    fn take(&mut self, block: &[u8], state: Self::State) -> Result<Self::State, Failure>;
}

// Hands a reader's bytes block by block to a step, until the input ends or a read or a step fails.
// A trait and no closure: a function that calls a closure asks its caller that it can be called.
pub fn each_block<R: Read, T: BlockStep>(
    reader: &mut R,
    block: &mut [u8],
    start: T::State,
    step: &mut T,
) -> Result<T::State, Failure>
    ensures { IfOk result (λ _. 0 < length block.new → IsAtEnd (R.remaining reader.new)) }
{
    let mut state = start;
    for _turn in 0..u64::MAX {
        let count = reader.read(block).map_err(|_| Failure::Unread)?;
        if count == 0 {
            return Ok(state);
        }
        state = step.take(&block[..count], state)?;
    }
    Err(Failure::Unread)
}

// Where the line behind the one at a place starts: behind its 0x0a, or at the text's end.
pub fn next_line(text: &[u8], at: usize) -> usize
    ensures start { result ≡ min (at + line_length (drop at text.now) + 1) (length text.now) }
    ensures inside { result ≤ length text.now }
    ensures on { at < length text.now → at < result }
{
    let end = line_blocks::line_end(text, at);
    if end < text.len() {
        end + 1
    } else {
        text.len()
    }
}
