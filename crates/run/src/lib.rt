// The run: instruction by instruction through the kernel, over the room that the caller lent.

#![tactic(auto)]

ghost use Rattle.std.specs.Prelude.{◌≡◌};
ghost use Rattle.tables.specs.Borrowed.{tables_of};
ghost use Rattle.step.specs.State.{setup};
ghost use Rattle.step.specs.Borrowed.{state_of, Goes};
ghost use Rattle.run.specs.Answer.{answer_of, number_told, detail_told};
ghost use Rattle.run.specs.Run.{outcome, run_through, run};

use lengths::{Lengths, TaintLengths};
use refusal::{Detail, Refusal};
use step::{Constants, Room};
use tables::Tables;

// What a run gives back: its refusal, if there is one, how many instructions were completed, and the byte position of the refused one or of the
// end.
#[derive(Clone, Copy)]
pub struct Answer {
    pub refusal: Option<Refusal>,
    pub completed: usize,
    pub position: usize,
}

impl Answer {
    // The number that is given back: 0, or the refusal's.
    pub fn number(self) -> u8
        ensures { result ≡ number_told self.refusal }
    {
        self.refusal.map_or(0, Refusal::number)
    }

    // What goes with the number.
    pub fn detail(self) -> Detail
        ensures { result ≡ detail_told self.refusal }
    {
        self.refusal.map_or(Detail::None, Refusal::detail)
    }
}

// The instructions in kernel order, up to the end or the first refusal; earlier instructions stand.
fn run_kernel(
    kernel: &[u8],
    tables: Tables<'_>,
    constants: Constants,
    room: &mut Room<'_>,
) -> Answer
    ensures outcome { outcome (answer_of result) (state_of room.new) ≡ run_through (setup kernel.now (tables_of tables.entry) constants) (state_of room.old) }
    ensures room { Goes room.old room.new (state_of room.new) }
{
    let mut completed = 0;
    let mut at = 0;
    // Each instruction has a byte at least.
    'turns: for _turn in 0..kernel.len() {
        if at >= kernel.len() {
            break;
        }
        match step::step(kernel, tables, constants, at, room) {
            Ok(next) => {
                completed += 1;
                at = next;
            }
            Err(stopped) => {
                return Answer {
                    refusal: Some(stopped.refusal),
                    completed,
                    position: at,
                };
            }
        }
    }
    Answer {
        refusal: None,
        completed,
        position: at,
    }
}

// A run with taint. 13 comes first; then the instructions, one after the other.
pub fn run(kernel: &[u8], tables: Tables<'_>, constants: Constants, room: &mut Room<'_>) -> Answer
    ensures outcome { outcome (answer_of result) (state_of room.new) ≡ run (setup kernel.now (tables_of tables.entry) constants) (state_of room.old) }
    ensures room { Goes room.old room.new (state_of room.new) }
{
    let taint = TaintLengths {
        registers: room.register_taint.len(),
        surfaces: room.surface_taint.len(),
        memory: room.memory_taint.len(),
    };
    let lengths = Lengths {
        kernel: kernel.len(),
        registers: room.registers.len(),
        surfaces: room.surfaces.len(),
        memory: room.memory.len(),
        base: constants.base,
        register_size: constants.register_size,
        taint,
    };
    if tables.good(lengths) {
        run_kernel(kernel, tables, constants, room)
    } else {
        Answer {
            refusal: Some(Refusal::Tables),
            completed: 0,
            position: 0,
        }
    }
}
