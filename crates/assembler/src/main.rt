// The assembler: texts from standard input, a line each, and the encodings of their instructions in hex to standard output.

#![tactic(auto)]

ghost use Rattle.std.specs.Prelude.{◌≡◌, ◌++◌, ◌+◌, ◌≤◌, ◌<◌, length, IfOk};
ghost use Rattle.hex_text.specs.Bytes.{hex_of};
ghost use Rattle.format_writers.specs.Writing.{wrote, written};
ghost use Rattle.format_writers.specs.Pages.{Writes};
ghost use Rattle.line_blocks.specs.LinesOf.{line_end};
ghost use Rattle.assembler.specs.Assembling.{column_line, assembled_line};
ghost use Rattle.assembler.specs.Mirror.Parts.{Goes, Passes};

use format_writers::Page;
use formats::Base;
use line_blocks::Begun;
use std::io::{Read, Write};
use streams::{BlockStep, Failure};

// The line of a refusal.
fn write_column(page: &mut Page<'_>, column: u64)
    ensures { Writes page.old page.new (column_line column) }
{
    page.word(b"! 16 |", 0);
    page.number(Base::Decimal, column);
    page.word(b"\n|", 0);
}

// Bytes in hex. An empty word is written first, so that a place past the buffer's end becomes the end.
fn write_bytes(page: &mut Page<'_>, bytes: &[u8])
    ensures { Writes page.old page.new (hex_of bytes.now) }
{
    page.word(b"|", 0);
    for byte in bytes {
        page.byte(*byte);
    }
}

// Bytes in hex, with the line's end.
fn write_encoding(page: &mut Page<'_>, bytes: &[u8])
    ensures { Writes page.old page.new (hex_of bytes.now ++ line_end) }
{
    write_bytes(page, bytes);
    page.word(b"\n|", 0);
}

// A refusal's line at a place of the output buffer, and the place past it.
fn put_column(out: &mut [u8], at: usize, column: u64) -> usize
    ensures { wrote result out.new ≡ written out.old at (column_line column) }
{
    let mut page = Page { out, at };
    write_column(&mut page, column);
    page.at
}

// An encoding's line there.
fn put_encoding(out: &mut [u8], at: usize, bytes: &[u8]) -> usize
    ensures { wrote result out.new ≡ written out.old at (hex_of bytes.now ++ line_end) }
{
    let mut page = Page { out, at };
    write_encoding(&mut page, bytes);
    page.at
}

// No encoding is longer than the buffer here, so that what is refused is refused by 16.
fn assemble_line(characters: &[u8], out: &mut [u8], at: usize) -> usize
    ensures { (wrote result out.new ≡ written out.old at (assembled_line characters.now)) × (length (assembled_line characters.now) ≤ 256) }
{
    let mut bytes = [0u8; 64];
    match text::read_into(characters, &mut bytes) {
        Ok(count) => put_encoding(out, at, line_blocks::first(&bytes, count)),
        // `as`: there is no `u64::from` of a `usize`
        Err(refusal) => put_column(out, at, refusal.column() as u64),
    }
}

// Where assembling stands: the line begun; how much of the output buffer is used; where the block is read on.
#[derive(Clone, Copy)]
struct State {
    begun: Begun,
    out: usize,
    place: usize,
}

// The characters of the block up to the line's end, and the line if it is whole. Of a text that is too long for the buffer its start is taken, which is
// refused at the same column (proofs/EncodedLaws.antt).
fn next_line(block: &[u8], line: &mut [u8], out: &mut [u8], s: State) -> State
    requires out_in_bounds { s.out + 256 ≤ length out.old }
    requires place_in_bounds { s.place < length block.now }
    ensures { Goes block.now line.old out.old s line.new out.new result }
{
    let place = s.place;
    let end = line_blocks::line_end(block, place);
    let begun = line_blocks::push_all(line, &block[place..end], s.begun);
    if block.len() <= end {
        return State {
            begun,
            place: end,
            ..s
        };
    }
    State {
        begun: Begun::nothing(),
        out: assemble_line(line_blocks::first(line, begun.used), out, s.out),
        place: end + 1,
    }
}

// Line by line until the block is done, or the output buffer has little room.
fn work(block: &[u8], line: &mut [u8], out: &mut [u8], from: State) -> State
    requires { from.out ≤ length out.old }
    ensures { Goes block.now line.old out.old from line.new out.new result }
{
    let mut s = from;
    for _turn in 0..u64::MAX {
        if out.len() - s.out < 256 || block.len() <= s.place {
            return s;
        }
        s = next_line(block, line, out, s);
    }
    s
}

// A block, its output written whenever the buffer has little room, and at the end; the line begun then.
// `listing` has such a loop over its own state and step: one function of both was not written, since `Passes` rests on `Goes` of every step, which a closure's
// contract would have to say over buffers that it holds.
fn assemble_block<W: Write>(
    writer: &mut W,
    block: &[u8],
    line: &mut [u8],
    out: &mut [u8],
    begun: Begun,
) -> Result<Begun, Failure>
    ensures { IfOk result (λ after. Passes block.now line.old begun.used begun.long line.new after.used after.long) }
{
    let mut s = State {
        begun,
        out: 0,
        place: 0,
    };
    for _turn in 0..u64::MAX {
        let next = work(block, line, out, s);
        writer
            .write_all(line_blocks::first(out, next.out))
            .map_err(|_| Failure::Unwritten)?;
        if block.len() <= next.place {
            return Ok(next.begun);
        }
        s = State { out: 0, ..next };
    }
    Err(Failure::Unwritten)
}

// Where encodings are written, and the buffers that they need from block to block.
#[derive(Drop)]
struct Assembler<'a, W> {
    writer: &'a mut W,
    line: &'a mut [u8],
    out: &'a mut [u8],
}

impl<W: Write> BlockStep for Assembler<'_, W> {
    type State = Begun;

    fn take(&mut self, block: &[u8], begun: Begun) -> Result<Begun, Failure> {
        assemble_block(self.writer, block, self.line, self.out, begun)
    }
}

// Block by block to the input's end, or to a read or a write that fails.
fn assemble_input<R: Read, W: Write>(
    reader: &mut R,
    block: &mut [u8],
    assembler: &mut Assembler<'_, W>,
) -> Result<(), Failure> {
    let begun = streams::each_block(reader, block, Begun::nothing(), assembler)?;
    // the last line may lack its 0x0a
    let end = line_blocks::last_end(b"\n", begun);
    assembler.take(end, begun)?;
    Ok(())
}

fn main(rt: HostRuntime) {
    let mut block = [0u8; 65536];
    let mut line = [0u8; 128];
    let mut out = [0u8; 65536];
    let mut assembler = Assembler {
        writer: &mut rt.stdout(),
        line: &mut line,
        out: &mut out,
    };
    let assembled = assemble_input(&mut rt.stdin(), &mut block, &mut assembler);
    if let Err(failure) = assembled {
        let _ = eprintln!(rt; "assembler: {failure}");
    }
}
