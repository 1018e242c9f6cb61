// What the channel rules, the tables' tests and an instruction's tests answer, written out.
ghost use Rattle.std.specs.Prelude.{◌≤◌};

use crate::{numbers, output};
use channels::Lanes;
use decoder::Instruction;
use lengths::{Lengths, TaintLengths};
use operands::Elements;
use plan::Plan;
use predicate_table::Predicates;
use refusal::{Detail, Refusal};
use std::io;
use tables::{Tables, Variables};

fn top_bit(on: bool) -> u32
    ensures { result ≤ 2147483648 }
{
    if on { 0x80000000 } else { 0 }
}

// The lanes that are on, lane 0 in the lowest bit.
fn mask_of(lanes: Lanes) -> u32 {
    let mut mask = 0;
    for lane in 0..32 {
        mask = mask / 2 + top_bit(lanes.on(lane));
    }
    mask
}

// A line of exec byte, pred word, EM and the predicate's bits: size, offset, NM and the lanes.
pub(crate) fn lanes(rt: &impl Print, line: &[u8]) -> io::Result<()> {
    let exec = numbers::byte(line, 0);
    let mask = numbers::dword(line, 3);
    let bits = numbers::dword(line, 7);
    let lanes = channels::lanes_of(exec, numbers::word(line, 1), mask, bits);
    output::number(rt, u64::from(lanes.exec.size))?;
    output::number(rt, u64::from(lanes.exec.offset))?;
    output::flag(rt, lanes.exec.unmasked)?;
    output::word(rt, mask_of(lanes))?;
    output::text(rt, b"\n")
}

fn lengths_of(register_size: u8, line: &[u8]) -> Lengths {
    let taint = TaintLengths {
        registers: numbers::size(line, 16),
        surfaces: numbers::size(line, 18),
        memory: numbers::size(line, 20),
    };
    Lengths {
        kernel: numbers::size(line, 0),
        registers: numbers::size(line, 2),
        surfaces: numbers::size(line, 4),
        memory: numbers::size(line, 6),
        base: numbers::qword(line, 8),
        register_size,
        taint,
    }
}

fn tables_good(
    register_size: u8,
    line: &[u8],
    variables: &[u8],
    predicates: &[u8],
    surfaces: &[u8],
) -> bool {
    let types = numbers::bytes_of(variables, 2, 0);
    let starts = numbers::words_of(variables, 3, 5, 0);
    let counts = numbers::words_of(variables, 5, 5, 1);
    let predicate_bits = [0u32; 257];
    let predicate_counts = numbers::bytes_of(predicates, 6, 32);
    let lengths = numbers::words_of(surfaces, 2, 2, 0);
    let tables = Tables {
        variables: Variables {
            types: &types[..numbers::entries(line, 22)],
            starts: &starts[..numbers::entries(line, 24)],
            counts: &counts[..numbers::entries(line, 26)],
        },
        predicates: Predicates {
            bits: &predicate_bits[..numbers::entries(line, 28)],
            counts: &predicate_counts[..numbers::entries(line, 30)],
        },
        surface_lengths: &lengths[..numbers::entries(line, 32)],
    };
    tables.good(lengths_of(register_size, line))
}

// A line of the lengths lent and of the tables' numbers of entries.
pub(crate) fn tables(
    rt: &impl Print,
    register_size: u8,
    line: &[u8],
    variables: &[u8],
    predicates: &[u8],
    surfaces: &[u8],
) -> io::Result<()> {
    if tables_good(register_size, line, variables, predicates, surfaces) {
        output::text(rt, b" 0\n")
    } else {
        output::text(rt, b" 13\n")
    }
}

fn positions(rt: &impl Print, at: [u32; 32], lanes: usize) -> io::Result<()> {
    for position in at.iter().take(lanes) {
        output::number(rt, u64::from(*position))?;
    }
    Ok(())
}

// Size, whether signed, and the number of an immediate or the position of every lane's element.
fn elements(rt: &impl Print, elements: Elements, lanes: usize) -> io::Result<()> {
    output::text(rt, b" |")?;
    output::number(rt, u64::from(elements.size))?;
    output::flag(rt, elements.signed)?;
    if elements.immediate {
        output::text(rt, b" =")?;
        output::number(rt, elements.value)
    } else {
        output::text(rt, b" @")?;
        let at = elements.at;
        positions(rt, at, lanes)
    }
}

// The predicate's bits, the block's bytes, the channels with the dwords from one's data to the next one's, and where the surface lies.
fn others(rt: &impl Print, plan: Plan) -> io::Result<()> {
    output::text(rt, b" |")?;
    output::word(rt, plan.bits)?;
    output::number(rt, u64::from(plan.bytes))?;
    output::number(rt, u64::from(plan.channels))?;
    output::number(rt, u64::from(plan.stride))?;
    output::number(rt, u64::from(plan.start))?;
    output::number(rt, u64::from(plan.length))
}

fn accepted(rt: &impl Print, plan: Plan) -> io::Result<()> {
    let lanes = usize::from(exec_byte::split(plan.control.exec).size);
    elements(rt, plan.left, lanes)?;
    elements(rt, plan.right, lanes)?;
    elements(rt, plan.payload, lanes)?;
    others(rt, plan)
}

// The operand's place; a pair, which nothing tells before data are read, would be seen too.
fn told(rt: &impl Print, detail: Detail) -> io::Result<()> {
    match detail {
        Detail::None => Ok(()),
        Detail::Operand(place) => {
            output::text(rt, b" operand")?;
            output::number(rt, u64::from(place))
        }
        Detail::Pair(channel, lane) => {
            output::text(rt, b" pair")?;
            output::number(rt, u64::from(channel))?;
            output::number(rt, u64::from(lane))
        }
    }
}

fn planned(rt: &impl Print, plan: Result<Plan, Refusal>) -> io::Result<()> {
    match plan {
        Ok(plan) => {
            output::number(rt, 0)?;
            accepted(rt, plan)
        }
        Err(refusal) => {
            output::number(rt, u64::from(refusal.number()))?;
            told(rt, refusal.detail())
        }
    }
}

fn plan_of(
    register_size: u8,
    instruction: Instruction,
    variables: &[u8],
    predicates: &[u8],
    surfaces: &[u8],
) -> Result<Plan, Refusal> {
    let types = numbers::bytes_of(variables, 2, 0);
    let starts = numbers::words_of(variables, 3, 5, 0);
    let counts = numbers::words_of(variables, 5, 5, 1);
    let predicate_bits = numbers::bits_of(predicates);
    let predicate_counts = numbers::bytes_of(predicates, 6, 32);
    let lengths = numbers::words_of(surfaces, 2, 2, 0);
    let tables = Tables {
        variables: Variables {
            types: &types[..numbers::entries(variables, 0)],
            starts: &starts[..numbers::entries(variables, 0)],
            counts: &counts[..numbers::entries(variables, 0)],
        },
        predicates: Predicates {
            bits: &predicate_bits[..numbers::entries(predicates, 0)],
            counts: &predicate_counts[..numbers::entries(predicates, 0)],
        },
        surface_lengths: &lengths[..numbers::entries(surfaces, 0)],
    };
    plan::check(register_size, tables, instruction)
}

// A kernel of one instruction.
pub(crate) fn instruction(
    rt: &impl Print,
    register_size: u8,
    line: &[u8],
    variables: &[u8],
    predicates: &[u8],
    surfaces: &[u8],
) -> io::Result<()> {
    let kernel = numbers::kernel_of(line);
    match decoder::decode(&kernel, 0) {
        Ok((instruction, _)) => {
            let plan = plan_of(register_size, instruction, variables, predicates, surfaces);
            planned(rt, plan)?;
        }
        Err(refusal) => output::number(rt, u64::from(refusal.number()))?,
    }
    output::text(rt, b"\n")
}
