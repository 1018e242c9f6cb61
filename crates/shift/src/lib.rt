// SHL's arithmetic: an exact number shifted, worked out on residues modulo 2^64.

#![tactic(auto)]

ghost use Rattle.std.specs.Prelude.{◌≡◌, ◌^◌, ◌≤◌};
ghost use Rattle.shift.specs.Exact.{span, exactly, modulo, shifted};
ghost use Rattle.shift.specs.Mirror.Total.{total_shift};

// How many numbers there are of so many bytes.
fn span_of(size: u8) -> u64
    requires { size ≤ 4 }
    ensures { result ≡ span size }
{
    1u64 << (8 * size)
}

// The lowest bytes of a value, read exactly, modulo 2^64.
fn residue(signed: bool, size: u8, value: u64) -> u64
    requires { size ≤ 4 }
    ensures { result ≡ modulo (exactly signed size value) (2 ^ 64) }
{
    let all = span_of(size);
    let low = value % all;
    if signed && all <= 2 * low {
        low.wrapping_sub(all)
    } else {
        low
    }
}

fn small_shift(signed: bool, size: u8, value: u64, count: u64, destination: u8) -> u64
    requires { (size ≤ 4) × (destination ≤ 4) }
    ensures { result ≡ shifted signed size value count destination }
{
    let product = residue(signed, size, value) << (count % 32);
    product % span_of(destination)
}

// The lowest size bytes of the value, signed or not, shifted into a destination of so many bytes.
pub fn shift(signed: bool, size: u8, value: u64, count: u64, destination: u8) -> u64
    ensures { result ≡ total_shift signed size value count destination }
{
    if size <= 4 && destination <= 4 {
        small_shift(signed, size, value, count, destination)
    } else {
        0
    }
}
