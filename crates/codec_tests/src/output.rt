// What the tests write to standard output: text, numbers, bytes in hex, lines.
use std::io;

pub(crate) fn wide(v: u8) -> usize {
    usize::from(v)
}

pub(crate) fn text(rt: &impl Print, s: &[u8]) -> io::Result<()> {
    rt.write_all(s)
}

pub(crate) fn number(rt: &impl Print, n: usize) -> io::Result<()> {
    print!(rt; "{n}")
}

pub(crate) fn answer(rt: &impl Print, word: &[u8], n: usize) -> io::Result<()> {
    text(rt, word)?;
    number(rt, n)
}

pub(crate) fn refused(rt: &impl Print, number: u8) -> io::Result<()> {
    answer(rt, b" refused ", wide(number))
}

fn byte(rt: &impl Print, v: u8) -> io::Result<()> {
    print!(rt; "{v:02x}")
}

// A space and bytes in hex, `-` where there are none.
pub(crate) fn bytes(rt: &impl Print, s: &[u8]) -> io::Result<()> {
    text(rt, b" ")?;
    if s.len() == 0 {
        text(rt, b"-")?;
    }
    for b in s {
        byte(rt, *b)?;
    }
    Ok(())
}

// A space and a line; nothing where there is none.
pub(crate) fn line(rt: &impl Print, s: &[u8]) -> io::Result<()> {
    if s.len() > 0 {
        text(rt, b" ")?;
        text(rt, s)?;
    }
    Ok(())
}
