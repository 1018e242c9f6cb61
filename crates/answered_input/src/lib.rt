// A case file, read and answered: what the programs share that read one.

#![tactic(auto)]

ghost use Rattle.std.specs.Prelude.{◌≡◌, ◌≤◌, ◌<◌, length, is_ok, IfOk};
ghost use Rattle.tally.specs.Mirror.Lent.{tables_seen};
ghost use Rattle.tally.specs.Mirror.Reading.{contents, reading};
ghost use Rattle.input.specs.Mirror.Reads.{stopped_at};
ghost use Rattle.answering.specs.Mirror.Puts.{Puts};
ghost use Rattle.case_file.specs.Forms.{case_file_text};
ghost use Rattle.answered_input.specs.Program.{Answers, PartKnown};
ghost use Rattle.answered_input.specs.Results.{count_of, bytes_of};
ghost use Rattle.answered_input.specs.Mirror.Ended.{ended_output};
ghost use Rattle.answered_input.specs.Mirror.PutsAnswer.{PutsAnswer, PutsKnown};

use answering::{Form, Storage};
use feeding::State;
use input::Unended;
use std::io::Read;
use streams::Failure;
use tally::{Case, ContentBuffers, TableBuffers, TableViews};

// Where reading stopped, at the input's end or before it.
fn stopped_at(read: Result<State, Unended>) -> State
    ensures { result ≡ stopped_at read }
{
    match read {
        Ok(state) => state,
        Err(unended) => unended.state,
    }
}

// The answer to a case, to the output buffer's start, and how many bytes it has; none if the input was not read to its end. A flag, since
// `ended_output` is over one, beside what `answering::answer` takes.
fn answer_ended(
    ended: bool,
    case: Case,
    storage: Storage,
    kernel: &[u8],
    tables: TableViews<'_>,
    form: Form,
    out: &mut [u8],
) -> Result<usize, Failure>
    ensures answer { let b = contents storage.registers storage.memory kernel.now storage.register_taint storage.surface_taint storage.memory_taint in Puts (ended_output ended form (reading case b (tables_seen tables.entry))) out.old out.new (count_of result) }
    ensures ended { is_ok result ≡ ended }
{
    if !ended {
        return Err(Failure::Unread);
    }
    Ok(answering::answer(case, storage, kernel, tables, form, out))
}

// The answer to an input that was read to its end, to the output buffer's start, and how many bytes it has. What does not fit is lost; 32,813 bytes hold
// all of it.
pub fn answer_input<R: Read>(reader: &mut R, form: Form, out: &mut [u8]) -> Result<usize, Failure>
    ensures some_calls { PutsAnswer (case_file_text form) out.old out.new (count_of result) }
    ensures known_bytes { PutsKnown (R.remaining reader.old) (case_file_text form) out.old out.new (count_of result) }
    ensures never_none { 32813 ≤ length out.old → IfOk result (λ used. 0 < used) }
{
    let mut line = [0u8; 16386];
    let mut storage = Storage {
        registers: [0; 4096],
        memory: [0; 4096],
        register_taint: [0; 4096],
        surface_taint: [0; 8192],
        memory_taint: [0; 4096],
    };
    let mut kernel = [0u8; 4096];
    let mut types = [0u8; 256];
    let mut starts = [0u16; 256];
    let mut counts = [0u16; 256];
    let mut predicate_bits = [0u32; 64];
    let mut predicate_counts = [0u8; 64];
    let mut surface_bytes = [0u8; 8192];
    let mut surface_lengths = [0u16; 8];
    let mut contents = ContentBuffers {
        registers: &mut storage.registers,
        memory: &mut storage.memory,
        kernel: &mut kernel,
        register_taint: &mut storage.register_taint,
        surface_taint: &mut storage.surface_taint,
        memory_taint: &mut storage.memory_taint,
    };
    let mut tables = TableBuffers {
        types: &mut types,
        starts: &mut starts,
        counts: &mut counts,
        predicate_bits: &mut predicate_bits,
        predicate_counts: &mut predicate_counts,
        surface_bytes: &mut surface_bytes,
        surface_lengths: &mut surface_lengths,
    };
    let read = input::read_all(reader, &mut line, &mut contents, &mut tables);
    let stopped = stopped_at(read);
    let state = feeding::finish(&line, &mut contents, &mut tables, stopped);
    answer_ended(
        read.is_ok(),
        state.case,
        storage,
        &kernel,
        TableViews {
            types: &types,
            starts: &starts,
            counts: &counts,
            predicate_bits: &predicate_bits,
            predicate_counts: &predicate_counts,
            surface_bytes: &surface_bytes,
            surface_lengths: &surface_lengths,
        },
        form,
        out,
    )
}

// The answer to an input, in a buffer: what is handed on to be written. 32,813 bytes have room for all of it; what does not fit is lost.
pub fn output_bytes<'a, R: Read>(
    reader: &mut R,
    form: Form,
    out: &'a mut [u8],
) -> Result<&'a [u8], Failure>
    ensures some_calls { 32813 ≤ length out.old → Answers (case_file_text form) (bytes_of result) }
    ensures known_bytes { 32813 ≤ length out.old → PartKnown (R.remaining reader.old) (case_file_text form) (bytes_of result) }
    ensures never_empty { 32813 ≤ length out.old → IfOk result (λ bytes. 0 < length bytes.now) }
{
    let used = answer_input(reader, form, out)?;
    Ok(line_blocks::first(out, used))
}
