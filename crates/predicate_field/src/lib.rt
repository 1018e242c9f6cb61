// What the pred word means, its parts and what is reserved in it; decoder, encoder and runs ask it here.

#![tactic(auto)]

ghost use Rattle.std.specs.Prelude.{◌≡◌};
ghost use Rattle.predicate_field.specs.Predicate.{has_predicate, predicate_id, predicate_combine, predicate_reserved, predicate_inverse};

#[tactic(auto, unfolding(crate::specs::Predicate::has_predicate))]
pub fn has_predicate(pred: u16) -> bool
    ensures { result ≡ has_predicate pred }
{
    pred != 0
}

#[tactic(auto, unfolding(crate::specs::Predicate::predicate_id, bits::specs::Bits::bit_field))]
pub fn predicate_id(pred: u16) -> u16
    ensures { result ≡ predicate_id pred }
{
    pred % 4096
}

// A code and no enum: `predicate_combine` of specs/ gives the number of every word, 3 among them, which `predicate_reserved` refuses.
// `as`, proved to keep the number: a `try_from` would have an Err that no value reaches.
#[tactic(auto, unfolding(crate::specs::Predicate::predicate_combine, bits::specs::Bits::bit_field))]
pub fn predicate_combine(pred: u16) -> u8
    ensures { result ≡ predicate_combine pred }
{
    (pred / 8192 % 4) as u8
}

// Bit 12 is zero, and code 3 of none, any and all is reserved.
#[tactic(auto, unfolding(crate::specs::Predicate::predicate_reserved, bits::specs::Bits::bit))]
pub fn predicate_reserved(pred: u16) -> bool
    ensures { result ≡ predicate_reserved pred }
{
    pred / 4096 % 2 == 1 || predicate_combine(pred) == 3
}

#[tactic(auto, unfolding(crate::specs::Predicate::predicate_inverse, bits::specs::Bits::bit))]
pub fn predicate_inverse(pred: u16) -> bool
    ensures { result ≡ predicate_inverse pred }
{
    pred / 32768 % 2 == 1
}
