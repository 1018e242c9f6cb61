// The plain run: a run over the caller's bytes with no marks.

#![tactic(auto)]

ghost use Rattle.std.specs.Prelude.{◌≡◌};
ghost use Rattle.tables.specs.Borrowed.{tables_of};
ghost use Rattle.step.specs.State.{setup, state};
ghost use Rattle.run.specs.Answer.{answer_of};
ghost use Rattle.run.specs.Run.{outcome, run};
ghost use Rattle.plain_run.specs.PlainRun.{plain_run, plain_outcome, without_marks};
ghost use Rattle.plain_run.specs.Mirror.TooLong.{too_long};

use refusal::Refusal;
use run::Answer;
use step::{Constants, Room};
use tables::Tables;

#[tactic(auto, unfolding(crate::specs::Mirror::TooLong::too_long))]
fn too_long(registers: usize, surfaces: usize, memory: usize) -> bool
    ensures { result ≡ too_long registers surfaces memory }
{
    4096 < registers || 8192 < surfaces || 4096 < memory
}

// The run over slices that make a room. A function of its own: a room of the caller's slices and of arrays that are made beside it would not
// give the caller its slices back.
fn run_slices<'a>(
    kernel: &[u8],
    tables: Tables<'_>,
    constants: Constants,
    surfaces: &'a [u8],
    surface_taint: &'a [u8],
    registers: &'a mut [u8],
    register_taint: &'a mut [u8],
    memory: &'a mut [u8],
    memory_taint: &'a mut [u8],
) -> Answer
    ensures { outcome (answer_of result) (state registers.new register_taint.new surfaces.now surface_taint.now memory.new memory_taint.new)
        ≡ run (setup kernel.now (tables_of tables.entry) constants) (state registers.old register_taint.old surfaces.now surface_taint.now memory.old memory_taint.old) }
{
    let mut room = Room {
        registers,
        register_taint,
        memory,
        memory_taint,
        surfaces,
        surface_taint,
    };
    run::run(kernel, tables, constants, &mut room)
}

// A run without taint: the run over taint that is all zero.
pub fn plain_run(
    kernel: &[u8],
    tables: Tables<'_>,
    constants: Constants,
    surfaces: &[u8],
    registers: &mut [u8],
    memory: &mut [u8],
) -> Answer
    ensures { plain_outcome (answer_of result) registers.new memory.new
        ≡ without_marks (plain_run (setup kernel.now (tables_of tables.entry) constants) registers.old surfaces.now memory.old) }
{
    let register_count = registers.len();
    let surface_count = surfaces.len();
    let memory_count = memory.len();
    if too_long(register_count, surface_count, memory_count) {
        return Answer {
            refusal: Some(Refusal::Tables),
            completed: 0,
            position: 0,
        };
    }
    let mut register_taint = [0u8; 4096];
    let surface_taint = [0u8; 8192];
    let mut memory_taint = [0u8; 4096];
    run_slices(
        kernel,
        tables,
        constants,
        surfaces,
        &surface_taint[..surface_count],
        registers,
        &mut register_taint[..register_count],
        memory,
        &mut memory_taint[..memory_count],
    )
}
