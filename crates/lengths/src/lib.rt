// The lengths of the caller's buffers: what they must satisfy before a run begins (refusal 13), and the size of a register.

#![tactic(auto)]

ghost use Rattle.std.specs.Prelude.{◌≡◌, ◌<◌};
ghost use Rattle.lengths.specs.Lengths.{register_size_good, chosen_size, registers_good, addresses_good, taint_good, lengths_good};

// The lengths of the three taint buffers.
#[derive(Clone, Copy)]
pub struct TaintLengths {
    pub registers: usize,
    pub surfaces: usize,
    pub memory: usize,
}

// The lengths of the caller's buffers, the address of the first byte of memory, and the bytes of a register.
#[derive(Clone, Copy)]
pub struct Lengths {
    pub kernel: usize,
    pub registers: usize,
    pub surfaces: usize,
    pub memory: usize,
    pub base: u64,
    pub register_size: u8,
    pub taint: TaintLengths,
}

#[tactic(auto, unfolding(crate::specs::Lengths::register_size_good))]
fn register_size_good(register_size: u8) -> bool
    ensures { result ≡ register_size_good register_size }
{
    register_size == 32 || register_size == 64
}

// The bytes of a register in a run that chose this number: 64 for 64, else 32. A run that chose neither is 13 before this is asked.
#[tactic(auto, unfolding(crate::specs::Lengths::chosen_size))]
pub fn chosen_size(number: u8) -> u8
    ensures { result ≡ chosen_size number }
{
    if number == 64 { 64 } else { 32 }
}

#[tactic(auto, unfolding(crate::specs::Lengths::registers_good))]
fn registers_good(register_size: u8, bytes: usize) -> bool
    requires { 0 < register_size }
    ensures { result ≡ registers_good register_size bytes }
{
    bytes % usize::from(register_size) == 0 && bytes <= 4096
}

// The last byte of memory, if there is one, has an address: asked by its distance from the base, since a sum could wrap.
#[tactic(auto, unfolding(crate::specs::Lengths::addresses_good))]
fn addresses_good(base: u64, bytes: usize) -> bool
    ensures { result ≡ addresses_good base bytes }
{
    if bytes == 0 {
        return true;
    }
    // `as`: there is no `u64::from` of a `usize`
    let last = (bytes - 1) as u64;
    last <= u64::MAX - base
}

#[tactic(auto, unfolding(crate::specs::Lengths::taint_good))]
fn taint_good(lengths: Lengths) -> bool
    ensures { result ≡ taint_good lengths }
{
    lengths.taint.registers == lengths.registers
        && lengths.taint.surfaces == lengths.surfaces
        && lengths.taint.memory == lengths.memory
}

#[tactic(auto, using(crate::proofs::Limits::size_some), unfolding(crate::specs::Lengths::lengths_good))]
pub fn lengths_good(lengths: Lengths) -> bool
    ensures { result ≡ lengths_good lengths }
{
    register_size_good(lengths.register_size)
        && registers_good(lengths.register_size, lengths.registers)
        && lengths.kernel <= 4096
        && lengths.memory <= 4096
        && addresses_good(lengths.base, lengths.memory)
        && taint_good(lengths)
}
