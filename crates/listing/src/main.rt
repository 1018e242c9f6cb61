// The listing: kernels in hex from standard input, a line each, and the lines of their instructions to standard output.

#![tactic(auto)]

ghost use Rattle.std.specs.Prelude.{◌≡◌, ◌||◌, ◌++◌, ◌+◌, ◌*◌, ◌≤◌, ◌<◌, ltb, length, take, is_some, unwrap_or, IfOk};
ghost use Rattle.format_writers.specs.Writing.{wrote, written};
ghost use Rattle.format_writers.specs.Pages.{Writes};
ghost use Rattle.lines.specs.Mirror.Line.{line};
ghost use Rattle.line_blocks.specs.LinesOf.{line_end};
ghost use Rattle.line_blocks.specs.Mirror.Rows.{row};
ghost use Rattle.listing.specs.Listing.{refusal_line, step_text, step_next, listed_from};
ghost use Rattle.listing.specs.Mirror.Parts.{is_kernel_in, kernel_in, row_listed, Goes, Passes};

use decoder::Instruction;
use format_writers::Page;
use formats::Base;
use line_blocks::Begun;
use std::io::{Read, Write};
use streams::{BlockStep, Failure};

// The line of a refusal.
fn write_refusal(page: &mut Page<'_>, number: u64, position: u64)
    ensures { Writes page.old page.new (refusal_line number position) }
{
    page.word(b"! |", 0);
    page.number(Base::Decimal, number);
    page.word(b" |", 0);
    page.number(Base::Decimal, position);
    page.word(b"\n|", 0);
}

// The line of an instruction, with its end.
fn write_instruction(page: &mut Page<'_>, instruction: Instruction)
    ensures { Writes page.old page.new (line.print instruction ++ line_end) }
{
    line_writers::put_line(page, instruction);
    page.word(b"\n|", 0);
}

// A refusal's line at a place of the output buffer, and the place past it.
fn put_refusal(out: &mut [u8], at: usize, number: u64, position: u64) -> usize
    ensures { wrote result out.new ≡ written out.old at (refusal_line number position) }
{
    let mut page = Page { out, at };
    write_refusal(&mut page, number, position);
    page.at
}

// An instruction's line there.
fn put_instruction(out: &mut [u8], at: usize, instruction: Instruction) -> usize
    ensures { wrote result out.new ≡ written out.old at (line.print instruction ++ line_end) }
{
    let mut page = Page { out, at };
    write_instruction(&mut page, instruction);
    page.at
}

// How much of the output buffer is used, and where listing goes on.
#[derive(Clone, Copy)]
struct Step {
    used: usize,
    next: usize,
}

// The line of the instruction at a position, or of its refusal, which ends the kernel.
fn list_instruction(kernel: &[u8], at: usize, out: &mut [u8], used: usize) -> Step
    ensures { (wrote result.used out.new ≡ written out.old used (step_text kernel.now at)) × ((result.next ≡ step_next kernel.now at) × (length (step_text kernel.now at) ≤ 256)) }
{
    match decoder::decode(kernel, at) {
        Ok((instruction, cursor)) => Step {
            used: put_instruction(out, used, instruction),
            next: cursor.at,
        },
        Err(refusal) => Step {
            // `as`: there is no `u64::from` of a `usize`
            used: put_refusal(out, used, u64::from(refusal.number()), at as u64),
            next: kernel.len(),
        },
    }
}

// The kernel that a line is, to the buffer's start, and how many bytes it has; nothing of a line that is none, or was too long.
fn load(characters: &[u8], long: bool, kernel: &mut [u8]) -> Option<usize>
    requires { length characters.now ≤ 2 * length kernel.old }
    ensures good { is_some result ≡ is_kernel_in long characters.now }
    ensures bytes { take (unwrap_or result 0) kernel.new ≡ kernel_in long characters.now }
{
    if long {
        return None;
    }
    if characters.is_empty() {
        return Some(0);
    }
    if !hex_text::is_hex(characters) {
        return None;
    }
    hex_text::store(characters, 0, kernel, 0);
    Some(hex_text::content_length(characters, 0))
}

// Where listing stands: the line begun; of the kernel at hand, how many bytes it has, and where listing goes on in it; how much of the output
// buffer is used; where the block is read on.
#[derive(Clone, Copy)]
struct State {
    begun: Begun,
    size: usize,
    at: usize,
    out: usize,
    place: usize,
}

// One more line of the kernel at hand.
fn list_step(block: &[u8], line: &[u8], kernel: &[u8], out: &mut [u8], s: State) -> State
    requires out_in_bounds { s.out + 256 ≤ length out.old }
    requires at_in_bounds { s.at < length (take s.size kernel.now) }
    ensures { Goes block.now line.now kernel.now out.old s line.now kernel.now out.new result }
{
    let step = list_instruction(line_blocks::first(kernel, s.size), s.at, out, s.out);
    State {
        at: step.next,
        out: step.used,
        ..s
    }
}

// How many bytes the kernel at hand has, and how much of the output buffer is used.
#[derive(Clone, Copy)]
struct Taken {
    size: usize,
    out: usize,
}

// A line that is whole: a kernel to be listed, or a refusal.
fn take_line(line: &[u8], begun: Begun, kernel: &mut [u8], out: &mut [u8], at: usize) -> Taken
    requires at_in_bounds { at + 256 ≤ length out.old }
    requires line_len_bound { length line.now ≤ 2 * length kernel.old }
    ensures { (take result.out out.new ++ listed_from (take result.size kernel.new) 0 ≡ take at out.old ++ row_listed (row line.now begun.used begun.long)) × (result.out ≤ length out.new) }
{
    match load(line_blocks::first(line, begun.used), begun.long, kernel) {
        Some(size) => Taken { size, out: at },
        None => Taken {
            size: 0,
            out: put_refusal(out, at, 14, 0),
        },
    }
}

// The characters of the block up to the line's end, and the line if it is whole.
fn next_line(block: &[u8], line: &mut [u8], kernel: &mut [u8], out: &mut [u8], s: State) -> State
    requires out_in_bounds { s.out + 256 ≤ length out.old }
    requires line_len_bound { length line.old ≤ 2 * length kernel.old }
    requires place_in_bounds { s.place < length block.now }
    requires kernel_len_bound { length (take s.size kernel.old) ≤ s.at }
    ensures { Goes block.now line.old kernel.old out.old s line.new kernel.new out.new result }
{
    let place = s.place;
    let end = line_blocks::line_end(block, place);
    let begun = line_blocks::push_all(line, &block[place..end], s.begun);
    if block.len() <= end {
        return State {
            begun,
            place: end,
            ..s
        };
    }
    let taken = take_line(line, begun, kernel, out, s.out);
    State {
        begun: Begun::nothing(),
        size: taken.size,
        at: 0,
        out: taken.out,
        place: end + 1,
    }
}

// Whether a line of the kernel at hand is still to come.
fn has_lines(kernel: &[u8], s: State) -> bool
    ensures { result ≡ ltb s.at (length (take s.size kernel.now)) }
{
    let bytes = line_blocks::first(kernel, s.size);
    s.at < bytes.len()
}

// One step: a line of the kernel at hand, or more of the block.
fn go_on(block: &[u8], line: &mut [u8], kernel: &mut [u8], out: &mut [u8], s: State) -> State
    requires out_in_bounds { s.out + 256 ≤ length out.old }
    requires line_len_bound { length line.old ≤ 2 * length kernel.old }
    ensures { Goes block.now line.old kernel.old out.old s line.new kernel.new out.new result }
{
    if has_lines(kernel, s) {
        return list_step(block, line, kernel, out, s);
    }
    if s.place < block.len() {
        return next_line(block, line, kernel, out, s);
    }
    s
}

// Whether there is more to do before the next block.
fn has_work(block: &[u8], kernel: &[u8], s: State) -> bool
    ensures { result ≡ (ltb s.at (length (take s.size kernel.now)) || ltb s.place (length block.now)) }
{
    has_lines(kernel, s) | (s.place < block.len())
}

// Step by step until all is done, or the output buffer has little room.
fn work(block: &[u8], line: &mut [u8], kernel: &mut [u8], out: &mut [u8], from: State) -> State
    requires out_in_bounds { from.out ≤ length out.old }
    requires line_len_bound { length line.old ≤ 2 * length kernel.old }
    ensures { Goes block.now line.old kernel.old out.old from line.new kernel.new out.new result }
{
    let mut s = from;
    for _turn in 0..u64::MAX {
        if out.len() - s.out < 256 || !has_work(block, kernel, s) {
            return s;
        }
        s = go_on(block, line, kernel, out, s);
    }
    s
}

// A block, its output written whenever the buffer has little room, and at the end; the line begun then.
// `assembler` has such a loop over its own state and step: one function of both was not written, since `Passes` rests on `Goes` of every step, which a closure's
// contract would have to say over buffers that it holds.
fn list_block<W: Write>(
    writer: &mut W,
    block: &[u8],
    line: &mut [u8],
    kernel: &mut [u8],
    out: &mut [u8],
    begun: Begun,
) -> Result<Begun, Failure>
    requires { length line.old ≤ 2 * length kernel.old }
    ensures { IfOk result (λ after. Passes block.now line.old begun.used begun.long line.new after.used after.long) }
{
    let mut s = State {
        begun,
        size: 0,
        at: 0,
        out: 0,
        place: 0,
    };
    for _turn in 0..u64::MAX {
        let next = work(block, line, kernel, out, s);
        writer
            .write_all(line_blocks::first(out, next.out))
            .map_err(|_| Failure::Unwritten)?;
        if !has_work(block, kernel, next) {
            return Ok(next.begun);
        }
        s = State { out: 0, ..next };
    }
    Err(Failure::Unwritten)
}

// Where a listing is written, and the buffers that it needs from block to block.
#[derive(Drop)]
struct Lister<'a, W> {
    writer: &'a mut W,
    line: &'a mut [u8; 131072],
    kernel: &'a mut [u8; 65536],
    out: &'a mut [u8],
}

impl<W: Write> BlockStep for Lister<'_, W> {
    type State = Begun;

    fn take(&mut self, block: &[u8], begun: Begun) -> Result<Begun, Failure> {
        // two steps: the arrays become slices once each reference is lent alone
        let line = &mut *self.line;
        let kernel = &mut *self.kernel;
        list_block(self.writer, block, line, kernel, self.out, begun)
    }
}

// Block by block to the input's end, or to a read or a write that fails.
fn list_input<R: Read, W: Write>(
    reader: &mut R,
    block: &mut [u8],
    lister: &mut Lister<'_, W>,
) -> Result<(), Failure> {
    let begun = streams::each_block(reader, block, Begun::nothing(), lister)?;
    // the last line may lack its 0x0a
    let end = line_blocks::last_end(b"\n", begun);
    lister.take(end, begun)?;
    Ok(())
}

fn main(rt: HostRuntime) {
    let mut block = [0u8; 65536];
    let mut line = [0u8; 131072];
    let mut kernel = [0u8; 65536];
    let mut out = [0u8; 65536];
    let mut lister = Lister {
        writer: &mut rt.stdout(),
        line: &mut line,
        kernel: &mut kernel,
        out: &mut out,
    };
    let listed = list_input(&mut rt.stdin(), &mut block, &mut lister);
    if let Err(failure) = listed {
        let _ = eprintln!(rt; "listing: {failure}");
    }
}
