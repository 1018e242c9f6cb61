// An instruction from numbers that nothing judges: it may have a field that no kernel's bytes give.
ghost use Rattle.std.specs.Prelude.{◌≤◌};

use decoder::{Gather, Instruction, RawSend, Scatter, Shl};
use field_groups::{Access, Control, Message};
use operand_fields::{General, Immediate, Operand, Raw};
use reader::{Cursor, Stored};

// The stored number at a position, 0 where it is not whole.
fn stored<T: Stored + From<u8>>(numbers: &[u8], at: usize) -> T {
    match (Cursor { at }).read(numbers) {
        Ok((v, _)) => v,
        Err(_) => T::from(0),
    }
}

pub(crate) fn byte(numbers: &[u8], at: usize) -> u8 {
    stored(numbers, at)
}

fn word(numbers: &[u8], at: usize) -> u16 {
    stored(numbers, at)
}

fn dword(numbers: &[u8], at: usize) -> u32 {
    stored(numbers, at)
}

fn control(numbers: &[u8], at: usize) -> Control
    requires { at ≤ 64 }
{
    Control {
        exec: byte(numbers, at),
        pred: word(numbers, at + 1),
    }
}

fn raw(numbers: &[u8], at: usize) -> Raw
    requires { at ≤ 64 }
{
    Raw {
        index: word(numbers, at),
        offset: word(numbers, at + 2),
    }
}

// Ten bytes: the class, 5 for Immediate, and its numbers, the high word of every type among them.
fn operand(numbers: &[u8], at: usize) -> Operand
    requires { at ≤ 64 }
{
    if byte(numbers, at) == 5 {
        Operand::Immediate(Immediate {
            code: byte(numbers, at + 1),
            low: dword(numbers, at + 2),
            high: dword(numbers, at + 6),
        })
    } else {
        Operand::General(General {
            index: word(numbers, at + 1),
            row: byte(numbers, at + 3),
            column: byte(numbers, at + 4),
            region: word(numbers, at + 5),
        })
    }
}

fn shl(numbers: &[u8]) -> Instruction {
    Instruction::Shl(Shl {
        control: control(numbers, 2),
        destination: operand(numbers, 5),
        source: operand(numbers, 15),
        count: operand(numbers, 25),
    })
}

fn access(numbers: &[u8]) -> Access {
    Access {
        block_size: byte(numbers, 5),
        num_blocks: byte(numbers, 6),
        scale: word(numbers, 7),
        surface: byte(numbers, 9),
    }
}

fn gather(numbers: &[u8]) -> Instruction {
    Instruction::Gather(Gather {
        control: control(numbers, 2),
        access: access(numbers),
        offset: operand(numbers, 10),
        element_offset: raw(numbers, 20),
        destination: raw(numbers, 24),
    })
}

fn scatter(numbers: &[u8]) -> Instruction {
    Instruction::Scatter(Scatter {
        control: control(numbers, 2),
        channels: byte(numbers, 5),
        scale: word(numbers, 6),
        address: operand(numbers, 8),
        element_offset: raw(numbers, 18),
        source: raw(numbers, 22),
    })
}

fn message(numbers: &[u8]) -> Message {
    Message {
        extended: dword(numbers, 6),
        num_src: byte(numbers, 10),
        num_dst: byte(numbers, 11),
    }
}

fn raw_send(numbers: &[u8]) -> Instruction {
    Instruction::RawSend(RawSend {
        modifiers: byte(numbers, 2),
        control: control(numbers, 3),
        message: message(numbers),
        descriptor: operand(numbers, 12),
        source: raw(numbers, 22),
        destination: raw(numbers, 26),
    })
}

// The second number is the opcode. The first is the buffer's length, which is no part of the instruction.
pub(crate) fn instruction(numbers: &[u8]) -> Instruction {
    match byte(numbers, 1) {
        0x24 => shl(numbers),
        0x78 => gather(numbers),
        0x4e => scatter(numbers),
        _ => raw_send(numbers),
    }
}
