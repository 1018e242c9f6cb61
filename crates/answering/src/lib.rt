// Answers a case that was read: judges it, runs it, and writes the output's lines or the verdict's.

#![tactic(auto)]

ghost use Rattle.std.specs.Prelude.{◌≡◌, ◌≤◌};
ghost use Rattle.tally.specs.Mirror.Kinds.{code_of};
ghost use Rattle.tally.specs.Mirror.Lent.{tables_seen};
ghost use Rattle.tally.specs.Mirror.Reading.{contents, reading};
ghost use Rattle.tally.specs.Mirror.Verdicts.{number_of, position_of};
ghost use Rattle.output.specs.Mirror.Page.{page, written};
ghost use Rattle.output.specs.Mirror.Lent.{lines_of};
ghost use Rattle.output.specs.Output.{output_bytes};
ghost use Rattle.step.specs.Borrowed.{state_of, Goes};
ghost use Rattle.run.specs.Answer.{answer_of, number_told};
ghost use Rattle.run.specs.Run.{outcome, run};
ghost use Rattle.answering.specs.Mirror.Setting.{taint_of, setup_of};
ghost use Rattle.answering.specs.Mirror.Forms.{outcome_text, refusal_text};
ghost use Rattle.answering.specs.Mirror.Puts.{Puts};
ghost use Rattle.answering.specs.Mirror.Bench.{good_output, case_output};

use line_blocks::first;
use output::Contents;
use predicate_table::Predicates;
use refusal::Detail;
use run::Answer;
use step::{Constants, Room};
use tables::{Tables, Variables};
use tally::{Case, Kind, TableViews, Unfit};

// What is written of an answer: the 40 line and the buffers, or the verdict line.
#[derive(Clone, Copy)]
pub enum Form {
    Lines,
    Verdict,
}

// The buffers that a run changes or marks, as a case file filled them.
#[derive(Clone, Copy)]
pub struct Storage {
    pub registers: [u8; 4096],
    pub memory: [u8; 4096],
    pub register_taint: [u8; 4096],
    pub surface_taint: [u8; 8192],
    pub memory_taint: [u8; 4096],
}

// The taint of a frame; zeros if it is absent.
#[tactic(auto, unfolding(crate::specs::Mirror::Setting::taint_of))]
fn taint_or_zeros<const N: usize>(kind: Kind, case: Case, taint: [u8; N]) -> [u8; N]
    ensures { result ≡ taint_of N (code_of kind) case taint.entry }
{
    if 0 < case.met(kind) { taint } else { [0; N] }
}

// The run, over tables and a kernel that are cut to what was read.
fn run_case(case: Case, kernel: &[u8], tables: TableViews<'_>, room: &mut Room<'_>) -> Answer
    ensures outcome { outcome (answer_of result) (state_of room.new) ≡ run (setup_of case kernel.now (tables_seen tables.entry)) (state_of room.old) }
    ensures small { (result.completed ≤ 4096) × (result.position ≤ 4096) }
    ensures room { Goes room.old room.new (state_of room.new) }
{
    // by hand: a `From` would stand in `step` or in `tally`, and neither stands on the other
    let constants = Constants {
        base: case.settings.base,
        mask: case.settings.mask,
        register_size: case.settings.register_size,
    };
    let variables = case.met(Kind::Variable);
    let predicates = case.met(Kind::Predicate);
    let filled = Tables {
        variables: Variables {
            types: first(tables.types, variables),
            starts: first(tables.starts, variables),
            counts: first(tables.counts, variables),
        },
        predicates: Predicates {
            bits: first(tables.predicate_bits, predicates),
            counts: first(tables.predicate_counts, predicates),
        },
        surface_lengths: first(tables.surface_lengths, case.met(Kind::Surface)),
    };
    let length = case.length(Kind::Kernel);
    run::run(first(kernel, length), filled, constants, room)
}

// The 40 line and the buffers.
// `as`: both numbers are 4,096 at most, as the contract asks, and a `try_from` would have an Err that no value reaches.
fn write_lines(out: &mut [u8], answer: Answer, contents: Contents<'_>) -> usize
    requires { (answer.completed ≤ 4096) × (answer.position ≤ 4096) }
    ensures { page out.new result ≡ written (output_bytes (number_told answer.refusal) answer.completed answer.position (lines_of contents.entry)) (page out.old 0) }
{
    // Both casts keep the number: it is at most 4,096.
    output::write(
        out,
        answer.number(),
        answer.completed as u16,
        answer.position as u32,
        contents,
    )
}

// The run, and what is written of it, over buffers that are cut to what was read.
fn run_and_write(
    case: Case,
    kernel: &[u8],
    tables: TableViews<'_>,
    room: &mut Room<'_>,
    form: Form,
    out: &mut [u8],
) -> usize
    ensures { Puts (outcome_text form case.settings.base (run (setup_of case kernel.now (tables_seen tables.entry)) (state_of room.old))) out.old out.new result }
{
    let answer = run_case(case, kernel, tables, room);
    match form {
        Form::Lines => {
            // Reborrowed first: two views right out of the room's fields are not covered by the borrow checker.
            let registers = &mut *room.registers;
            let memory = &mut *room.memory;
            let register_taint = &mut *room.register_taint;
            let memory_taint = &mut *room.memory_taint;
            let contents = Contents {
                base: case.settings.base,
                registers,
                memory,
                register_taint,
                memory_taint,
            };
            write_lines(out, answer, contents)
        }
        Form::Verdict => verdict_line::put_verdict(
            out,
            answer.number(),
            answer.completed,
            answer.position,
            answer.detail(),
        ),
    }
}

// A case that is not run: its number and position.
// By the form, here and above, and no closure or trait: `outcome_text` and `refusal_text` are over `Form`.
fn write_refusal(unfit: Unfit, form: Form, out: &mut [u8]) -> usize
    ensures { Puts (refusal_text form (number_of unfit) (position_of unfit)) out.old out.new result }
{
    let number = unfit.number();
    let position = unfit.position();
    match form {
        Form::Lines => output::put_answer(out, 0, number, 0, position),
        // `as usize`: there is no `usize::from` of a `u32`.
        Form::Verdict => verdict_line::put_verdict(out, number, 0, position as usize, Detail::None),
    }
}

// A case without a bad line, whose contents fit.
fn answer_good(
    case: Case,
    storage: Storage,
    kernel: &[u8],
    tables: TableViews<'_>,
    form: Form,
    out: &mut [u8],
) -> usize
    ensures { let b = contents storage.registers storage.memory kernel.now storage.register_taint storage.surface_taint storage.memory_taint in Puts (good_output form (reading case b (tables_seen tables.entry))) out.old out.new result }
{
    let mut registers = storage.registers;
    let mut memory = storage.memory;
    let mut register_taint = taint_or_zeros(Kind::RegisterTaint, case, storage.register_taint);
    let mut memory_taint = taint_or_zeros(Kind::MemoryTaint, case, storage.memory_taint);
    let surface_taint = taint_or_zeros(Kind::SurfaceTaint, case, storage.surface_taint);
    let file = case.length(Kind::Registers).min(4096);
    let window = case.length(Kind::Memory).min(4096);
    let file_taint = case
        .taint_length(Kind::RegisterTaint, Kind::Registers)
        .min(4096);
    let window_taint = case.taint_length(Kind::MemoryTaint, Kind::Memory).min(4096);
    let mut room = Room {
        registers: &mut registers[..file],
        register_taint: &mut register_taint[..file_taint],
        memory: &mut memory[..window],
        memory_taint: &mut memory_taint[..window_taint],
        surfaces: first(tables.surface_bytes, case.length(Kind::Surface)),
        surface_taint: first(
            &surface_taint,
            case.taint_length(Kind::SurfaceTaint, Kind::Surface),
        ),
    };
    run_and_write(case, kernel, tables, &mut room, form, out)
}

// The whole answer to a case and the buffers that it was read into, to the output buffer's start, and how many bytes it has.
pub fn answer(
    case: Case,
    storage: Storage,
    kernel: &[u8],
    tables: TableViews<'_>,
    form: Form,
    out: &mut [u8],
) -> usize
    ensures { let b = contents storage.registers storage.memory kernel.now storage.register_taint storage.surface_taint storage.memory_taint in Puts (case_output form (reading case b (tables_seen tables.entry))) out.old out.new result }
{
    match case.judge() {
        Ok(()) => answer_good(case, storage, kernel, tables, form, out),
        Err(unfit) => write_refusal(unfit, form, out),
    }
}
