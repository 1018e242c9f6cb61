// Tests of the channel rules, of the tables and of what a run tests of an instruction before it reads data. The first lines
// of the file `stdin` say how lines are read and written.

#![tactic(auto)]

mod answers;
mod numbers;
mod output;

ghost use Rattle.std.specs.Prelude.{◌≤◌, ◌<◌, length};

use std::io;

fn answer_line(
    rt: &impl Print,
    register_size: u8,
    line: &[u8],
    variables: &[u8],
    predicates: &[u8],
    surfaces: &[u8],
) -> io::Result<()> {
    match line {
        [b'#', ..] => output::text(rt, line),
        [b'c', numbers @ ..] => answers::lanes(rt, numbers),
        [b't', numbers @ ..] => {
            answers::tables(rt, register_size, numbers, variables, predicates, surfaces)
        }
        [b'k', numbers @ ..] => {
            answers::instruction(rt, register_size, numbers, variables, predicates, surfaces)
        }
        _ => Ok(()),
    }
}

// Where the numbers of a table's latest line start, which is behind its letter.
fn latest(text: &[u8], at: usize, table: u8, before: usize) -> usize
    requires { (at < length text.now) × (before ≤ length text.now) }
    ensures { result ≤ length text.now }
{
    if text[at] == table { at + 1 } else { before }
}

// The size of a register from this line on.
fn chosen(text: &[u8], at: usize, before: u8) -> u8
    requires { at < length text.now }
{
    if text[at] == b'r' {
        numbers::byte(&text[at + 1..], 0)
    } else {
        before
    }
}

fn answer_lines(rt: &impl Print, text: &[u8]) -> io::Result<()> {
    let mut at = 0;
    let mut register_size: u8 = 32;
    let mut variables = 0;
    let mut predicates = 0;
    let mut surfaces = 0;
    // from line to line: the latest line of each table is kept by its place
    while at < text.len() {
        let next = streams::next_line(text, at);
        variables = latest(text, at, b'v', variables);
        predicates = latest(text, at, b'p', predicates);
        surfaces = latest(text, at, b's', surfaces);
        register_size = chosen(text, at, register_size);
        answer_line(
            rt,
            register_size,
            &text[at..next],
            &text[variables..],
            &text[predicates..],
            &text[surfaces..],
        )?;
        at = next;
    }
    Ok(())
}

fn main(rt: HostRuntime) -> io::Result<()> {
    let mut text = [0u8; 131072];
    let count = streams::read_full(&mut rt.stdin(), &mut text)?;
    answer_lines(&rt, &text[..count])
}
