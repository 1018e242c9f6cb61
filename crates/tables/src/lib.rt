// What the caller's tables and lengths must satisfy before a run begins (refusal 13): the variables here, the others each by its crate.

#![tactic(auto)]

ghost use Rattle.std.specs.Prelude.{◌≡◌, ◌+◌, ◌<◌, ◌≤◌, length};
ghost use Rattle.bits.specs.Below.{every_below};
ghost use Rattle.tables.specs.Variables.{line_good, variable_good, variable_good_at, variables_good};
ghost use Rattle.tables.specs.Tables.{tables_good};
ghost use Rattle.tables.specs.Borrowed.{variables_of, tables_of};

use lengths::Lengths;
use predicate_table::Predicates;

// The lent table of variables: variable k has the k-th type, start byte and element count. Three slices and not one of records, since a run whose
// slices differ in length answers 13 (`variables_good`).
#[derive(Clone, Copy)]
pub struct Variables<'a> {
    pub types: &'a [u8],
    pub starts: &'a [u16],
    pub counts: &'a [u16],
}

// All tables of a run; of the surfaces their lengths.
#[derive(Clone, Copy)]
pub struct Tables<'a> {
    pub variables: Variables<'a>,
    pub predicates: Predicates<'a>,
    pub surface_lengths: &'a [u16],
}

// A long variable starts a register; the first and the last byte of a short one lie in the same register.
#[tactic(auto, unfolding(crate::specs::Variables::line_good))]
fn line_good(register_size: usize, start: usize, bytes: usize) -> bool
    requires { (0 < register_size) × (0 < bytes) × (start + bytes ≤ 4294967296) }
    ensures { result ≡ line_good register_size start bytes }
{
    if register_size <= bytes {
        start % register_size == 0
    } else {
        start / register_size == (start + bytes - 1) / register_size
    }
}

#[tactic(auto, using(crate::proofs::Placement::listed_some, crate::proofs::Placement::bytes_some, crate::proofs::Placement::bytes_small), unfolding(crate::specs::Variables::variable_good))]
fn variable_good(register_size: usize, registers: usize, code: u8, start: u16, count: u16) -> bool
    requires { 0 < register_size }
    ensures { result ≡ variable_good register_size registers code start count }
{
    if !element_types::is_listed(code) || count < 1 {
        return false;
    }
    let first = usize::from(start);
    let size = usize::from(element_types::size_of(code));
    let bytes = usize::from(count) * size;
    first + bytes <= registers && first % size == 0 && line_good(register_size, first, bytes)
}

impl Variables<'_> {
    // Whether each variable lies where it may; the slices are of one length.
    fn each_good(self, register_size: usize, registers: usize) -> bool
        requires { (0 < register_size) × (length self.starts.now ≡ length self.types.now) × (length self.counts.now ≡ length self.types.now) }
        ensures { result ≡ every_below (length self.entry.types.now) (variable_good_at register_size registers (variables_of self.entry)) }
    {
        self.types.iter().zip(self.starts).zip(self.counts).all(|(
            (code, start),
            count,
        )| variable_good(register_size, registers, *code, *start, *count))
    }

    // Whether the table keeps the sizes, in a register file of so many bytes.
    #[tactic(auto, unfolding(crate::specs::Variables::variables_good))]
    fn good(self, register_size: usize, registers: usize) -> bool
        requires { 0 < register_size }
        ensures { result ≡ variables_good register_size registers (variables_of self.entry) }
    {
        self.types.len() <= 256
            && self.starts.len() == self.types.len()
            && self.counts.len() == self.types.len()
            && self.each_good(register_size, registers)
    }
}

impl Tables<'_> {
    // Whether all tables and lengths keep the sizes; a run answers 13 if not.
    #[tactic(auto, using(lengths::proofs::Limits::lengths_size), unfolding(crate::specs::Tables::tables_good))]
    pub fn good(self, lengths: Lengths) -> bool
        ensures { result ≡ tables_good lengths (tables_of self.entry) }
    {
        lengths::lengths_good(lengths)
            && self
                .variables
                .good(usize::from(lengths.register_size), lengths.registers)
            && self.predicates.good()
            && surface_table::surfaces_good(lengths.surfaces, self.surface_lengths)
    }
}
