// The exec byte: its parts and what is reserved in it, by a table of its 256 values.

#![tactic(auto)]

mod exec_table;

ghost use Rattle.std.specs.Prelude.{◌≡◌};
ghost use Rattle.exec_byte.specs.Exec.{exec_of};

// The parts of an exec byte: whether it is reserved, ExecSize, the offset, and whether NM is chosen.
// A flag and no Option: `exec_of` gives the size and the offset of a reserved byte too, 0.
#[derive(Clone, Copy)]
pub struct Exec {
    pub reserved: bool,
    pub size: u8,
    pub offset: u8,
    pub unmasked: bool,
}

// What the exec byte means; decoder, encoder, texts and runs ask it here, and nothing else looks at its bits.
// `as`, proved to keep the number: a `try_from` would have an Err that no value reaches.
pub fn split(exec: u8) -> Exec
    ensures { result ≡ exec_of exec }
{
    let code = exec_table::entry(exec);
    Exec {
        reserved: code == 0,
        size: (code % 64) as u8,
        offset: (code / 64 % 64) as u8,
        unmasked: 4096 <= code,
    }
}
