// What printing and reading answer, written out.
use crate::output;
use decoder::Instruction;
use std::io;

// The printer's answer for this buffer, and the whole buffer after it.
fn print_into(rt: &impl Print, instruction: Instruction, buffer: &mut [u8]) -> io::Result<()> {
    match text::print(instruction, buffer) {
        Ok(count) => output::answer(rt, b" printed ", count)?,
        Err(refusal) => output::refused(rt, refusal.number())?,
    }
    output::line(rt, buffer)
}

// The same for a buffer of `room` bytes, at most 128, each `~` before.
fn print(rt: &impl Print, instruction: Instruction, room: usize) -> io::Result<()> {
    let mut buffer = [b'~'; 128];
    if room <= 128 {
        print_into(rt, instruction, &mut buffer[..room])?;
    }
    Ok(())
}

// The printer's answers for exactly the line's length, one less and one more.
fn print_again(rt: &impl Print, instruction: Instruction, length: usize) -> io::Result<()> {
    if length == 0 {
        return Ok(());
    }
    if 128 <= length {
        return Ok(());
    }
    let less = length - 1;
    let more = length + 1;
    print(rt, instruction, length)?;
    print(rt, instruction, less)?;
    print(rt, instruction, more)
}

// The reader's answer for this buffer, and the whole buffer after it.
fn read_into(rt: &impl Print, line: &[u8], buffer: &mut [u8]) -> io::Result<()> {
    match text::read_into(line, buffer) {
        Ok(count) => output::answer(rt, b" read ", count)?,
        Err(refusal) => output::refused(rt, refusal.number())?,
    }
    output::bytes(rt, buffer)
}

// The same for a buffer of `room` bytes, at most 64, each 0xaa before.
fn read(rt: &impl Print, line: &[u8], room: usize) -> io::Result<()> {
    let mut buffer = [0xaau8; 64];
    if room <= 64 {
        read_into(rt, line, &mut buffer[..room])?;
    }
    Ok(())
}

// The length of the line that is printed here, 0 for a refusal.
fn length_in(instruction: Instruction, line: &mut [u8]) -> usize {
    text::print(instruction, line).unwrap_or(0)
}

// The first bytes of a buffer, all where it has fewer.
fn start(buffer: &[u8], count: usize) -> &[u8] {
    buffer.get(..count).unwrap_or(buffer)
}

// Printing, and reading the line into a buffer of `size` bytes.
pub(crate) fn print_and_read(
    rt: &impl Print,
    instruction: Instruction,
    size: usize,
) -> io::Result<()> {
    let mut line = [b'~'; 128];
    let length = length_in(instruction, &mut line);
    print_again(rt, instruction, length)?;
    read(rt, start(&line, length), size)
}

// The line in a buffer of exactly its length, or the number of a field's refusal, which comes first where there is no room.
pub(crate) fn print_alone(rt: &impl Print, instruction: Instruction) -> io::Result<()> {
    let mut line = [b'~'; 128];
    let length = length_in(instruction, &mut line);
    print(rt, instruction, length)
}
