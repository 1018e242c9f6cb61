// What the tests write to standard output: text, numbers in decimal, words in hex.
use std::io;

pub(crate) fn text(rt: &impl Print, s: &[u8]) -> io::Result<()> {
    rt.write_all(s)
}

// A space and a number.
pub(crate) fn number(rt: &impl Print, n: u64) -> io::Result<()> {
    print!(rt; " {n}")
}

// A space and a word in hex.
pub(crate) fn word(rt: &impl Print, v: u32) -> io::Result<()> {
    print!(rt; " {v:08x}")
}

pub(crate) fn flag(rt: &impl Print, v: bool) -> io::Result<()> {
    if v { text(rt, b" 1") } else { text(rt, b" 0") }
}
