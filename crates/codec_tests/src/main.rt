// The codec's tests: each kernel of standard input is decoded; where it is accepted it is encoded again and printed, and its line
// is read. The first lines of the file `stdin` say how lines are read and written.

#![tactic(auto)]

mod answers;
mod built;
mod output;
mod texts;

ghost use Rattle.std.specs.Prelude.{◌≡◌, ◌≤◌, ◌<◌, length};

use std::io;

// The number that a lower-case hex digit stands for. `plan_tests` has it too: `streams` and `hex_text` are no place for a digit that takes every character, a line's
// end among them, to a number, and no other crate that both use reads lines of tests.
fn digit(glyph: u8) -> u8
    ensures { result < 16 }
{
    if glyph < b'a' {
        glyph % 16
    } else {
        (glyph % 16 + 9) % 16
    }
}

fn digit_at(line: &[u8], at: usize) -> u8
    ensures { result < 16 }
{
    if at < line.len() { digit(line[at]) } else { 0 }
}

// The bytes that a line of hex stands for, and zeros behind them.
fn kernel_of(line: &[u8]) -> [u8; 64]
    ensures { 64 ≡ length result }
{
    let mut kernel = [0u8; 64];
    for i in 0..64 {
        kernel[i] = 16 * digit_at(line, 2 * i) + digit_at(line, 2 * i + 1);
    }
    kernel
}

// A line of hex with its line end, so that half its length, rounded down, is the kernel's: at most 64.
fn answer_kernel(rt: &impl Print, line: &[u8]) -> io::Result<()> {
    let count = line.len() / 2;
    let kernel = kernel_of(line);
    if count <= 64 {
        answers::of_kernel(rt, &kernel[..count])?;
    }
    Ok(())
}

fn answer_built(rt: &impl Print, line: &[u8]) -> io::Result<()> {
    let numbers = kernel_of(line);
    answers::of_numbers(rt, &numbers)
}

fn answer_line(rt: &impl Print, line: &[u8]) -> io::Result<()> {
    if line.len() == 0 {
        return Ok(());
    }
    if line[0] == b'#' {
        return output::text(rt, line);
    }
    if line[0] == b'=' {
        answer_built(rt, &line[1..])
    } else {
        answer_kernel(rt, line)
    }
}

fn answer_lines(rt: &impl Print, text: &[u8]) -> io::Result<()> {
    for line in text.split_inclusive(|byte| *byte == b'\n') {
        answer_line(rt, line)?;
    }
    Ok(())
}

fn main(rt: HostRuntime) -> io::Result<()> {
    let mut text = [0u8; 65536];
    let count = streams::read_full(&mut rt.stdin(), &mut text)?;
    answer_lines(&rt, &text[..count])
}
