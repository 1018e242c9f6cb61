// The element types: code, size and sign of each, in this one place.

#![tactic(auto)]

ghost use Rattle.std.specs.Prelude.{◌≡◌};
ghost use Rattle.element_types.specs.Types.{size_of, is_listed, is_signed, has_high_word};

// Codes and no enum: an immediate and a table may hold any byte, and these functions answer for each (`size_of`, 0 where it is not listed).
pub const UD: u8 = 0;

pub const D: u8 = 1;

pub const UW: u8 = 2;

pub const W: u8 = 3;

pub const UB: u8 = 4;

pub const B: u8 = 5;

pub const F: u8 = 7;

pub const UQ: u8 = 11;

// The bytes of an element, 0 for a code that is not listed.
#[tactic(auto, unfolding(crate::specs::Types::size_of))]
pub fn size_of(code: u8) -> u8
    ensures { result ≡ size_of code }
{
    match code {
        UD | D | F => 4,
        UW | W => 2,
        UB | B => 1,
        UQ => 8,
        _ => 0,
    }
}

#[tactic(auto, unfolding(crate::specs::Types::is_listed))]
pub fn is_listed(code: u8) -> bool
    ensures { result ≡ is_listed code }
{
    0 < size_of(code)
}

#[tactic(auto, unfolding(crate::specs::Types::is_signed))]
pub fn is_signed(code: u8) -> bool
    ensures { result ≡ is_signed code }
{
    matches!(code, D | W | B)
}

// Whether an immediate of this type stores a high word after its low one.
#[tactic(auto, unfolding(crate::specs::Types::has_high_word))]
pub fn has_high_word(code: u8) -> bool
    ensures { result ≡ has_high_word code }
{
    size_of(code) == 8
}
