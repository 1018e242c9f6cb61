// What is answered for a kernel and for an instruction of numbers: decoding, encoding, printing and reading, written out.
use crate::{built, output, texts};
use decoder::Instruction;
use std::io;

// The encoder's answer for this buffer, and the whole buffer after it.
fn encode_into(rt: &impl Print, instruction: Instruction, buffer: &mut [u8]) -> io::Result<()> {
    match encoder::encode(instruction, buffer) {
        Ok(count) => output::answer(rt, b" wrote ", count)?,
        Err(refusal) => output::refused(rt, refusal.number())?,
    }
    output::bytes(rt, buffer)
}

// The same for a buffer of `room` bytes, at most 64, each 0xaa before.
fn encode(rt: &impl Print, instruction: Instruction, room: usize) -> io::Result<()> {
    let mut buffer = [0xaau8; 64];
    if room <= 64 {
        encode_into(rt, instruction, &mut buffer[..room])?;
    }
    Ok(())
}

// The encoder's answers for exactly the right size, one less and one more.
// As `print_again`, which prints: with the step as a closure neither would be shorter.
fn encode_again(rt: &impl Print, instruction: Instruction, size: usize) -> io::Result<()> {
    if size == 0 {
        return Ok(());
    }
    if 64 <= size {
        return Ok(());
    }
    let less = size - 1;
    let more = size + 1;
    encode(rt, instruction, size)?;
    encode(rt, instruction, less)?;
    encode(rt, instruction, more)
}

// The number of decoding at the start, the instruction's own bytes, and encoding, printing and reading what was decoded.
pub(crate) fn of_kernel(rt: &impl Print, kernel: &[u8]) -> io::Result<()> {
    output::number(rt, output::wide(decoder::decode_number(kernel, 0)))?;
    output::bytes(rt, decoder::own_bytes(kernel, 0))?;
    match decoder::decode(kernel, 0) {
        Ok((instruction, cursor)) => {
            encode_again(rt, instruction, cursor.at)?;
            texts::print_and_read(rt, instruction, cursor.at)?;
        }
        Err(_) => {}
    }
    output::text(rt, b"\n")
}

// Encoding and printing the instruction of these numbers.
pub(crate) fn of_numbers(rt: &impl Print, numbers: &[u8]) -> io::Result<()> {
    let room = output::wide(built::byte(numbers, 0));
    let instruction = built::instruction(numbers);
    output::text(rt, b"=")?;
    encode(rt, instruction, room)?;
    texts::print_alone(rt, instruction)?;
    output::text(rt, b"\n")
}
