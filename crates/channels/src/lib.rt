// Which lanes of an instruction are on: by its exec byte, its pred word, the execution mask and the predicate's bits.

#![tactic(auto)]

ghost use Rattle.std.specs.Prelude.{◌≡◌, ℕ, ◌+◌};
ghost use Rattle.std.specs.Bool.{beq};
ghost use Rattle.bits.specs.Bits.{bit};
ghost use Rattle.bits.specs.Below.{some_below};
ghost use Rattle.channels.specs.Lanes.{inverted};
ghost use Rattle.channels.specs.Mirror.Prepared.{combined_predicate, predicate_of, lanes_of, agrees_at, is_on};

use exec_byte::Exec;

// Codes and no enum: `combined_predicate` is over any code.
const ANY: u8 = 1;

const ALL: u8 = 2;

// What the predicate says: the same in every lane, or a bit of the word for each lane, inverted or not.
#[derive(Clone, Copy)]
pub enum Predicate {
    Uniform(bool),
    PerLane(u32, bool),
}

// What is worked out once for an instruction.
#[derive(Clone, Copy)]
pub struct Lanes {
    pub exec: Exec,
    pub mask: u32,
    pub predicate: Predicate,
}

// Bit n of a word, 0 past its end.
#[tactic(auto, using(crate::proofs::BitLaws::bit_past), unfolding(bits::specs::Bits::bit))]
pub fn bit_at(word: u32, n: usize) -> bool
    ensures { result ≡ bit word n }
{
    n < 32 && (word >> n) % 2 == 1
}

// Whether one of the size bits from the offset on has this value.
fn some_bit(bits: u32, exec: Exec, value: bool) -> bool
    ensures { result ≡ some_below exec.size (λ (k : ℕ). beq (bit bits (k + exec.offset)) value) }
{
    let offset = usize::from(exec.offset);
    // `any` over the range was tried: that proof didn't close.
    let mut found = false;
    for k in 0..usize::from(exec.size) {
        found |= bit_at(bits, k + offset) == value;
    }
    found
}

#[tactic(auto, unfolding(crate::specs::Lanes::inverted))]
fn invert(inverse: bool, value: bool) -> bool
    ensures { result ≡ inverted inverse value }
{
    inverse != value
}

// Any and all, worked out: some bit is 1, no bit is 0.
#[tactic(auto, unfolding(crate::specs::Mirror::Prepared::combined_predicate))]
fn combine(exec: Exec, code: u8, inverse: bool, bits: u32) -> Predicate
    ensures { result ≡ combined_predicate exec code inverse bits }
{
    match code {
        ANY => Predicate::Uniform(invert(inverse, some_bit(bits, exec, true))),
        ALL => Predicate::Uniform(invert(inverse, !some_bit(bits, exec, false))),
        _ => Predicate::PerLane(bits, inverse),
    }
}

#[tactic(auto, unfolding(crate::specs::Mirror::Prepared::predicate_of))]
fn predicate_of(exec: Exec, pred: u16, bits: u32) -> Predicate
    ensures { result ≡ predicate_of exec pred bits }
{
    if predicate_field::has_predicate(pred) {
        combine(
            exec,
            predicate_field::predicate_combine(pred),
            predicate_field::predicate_inverse(pred),
            bits,
        )
    } else {
        Predicate::Uniform(true)
    }
}

// `bits` are those of the predicate that the pred word names; without one they do not matter.
#[tactic(auto, unfolding(crate::specs::Mirror::Prepared::lanes_of))]
pub fn lanes_of(exec: u8, pred: u16, mask: u32, bits: u32) -> Lanes
    ensures { result ≡ lanes_of exec pred mask bits }
{
    let e = exec_byte::split(exec);
    Lanes {
        exec: e,
        mask,
        predicate: predicate_of(e, pred, bits),
    }
}

#[tactic(auto, unfolding(crate::specs::Mirror::Prepared::agrees_at))]
fn agrees_at(predicate: Predicate, place: usize) -> bool
    ensures { result ≡ agrees_at predicate place }
{
    match predicate {
        Predicate::Uniform(value) => value,
        Predicate::PerLane(bits, inverse) => invert(inverse, bit_at(bits, place)),
    }
}

impl Lanes {
    // Whether a lane is on; one at or past the size is not.
    #[tactic(auto, unfolding(crate::specs::Mirror::Prepared::is_on))]
    pub fn on(self, lane: usize) -> bool
        ensures { result ≡ is_on self lane }
    {
        if lane >= usize::from(self.exec.size) {
            return false;
        }
        let place = lane + usize::from(self.exec.offset);
        (self.exec.unmasked || bit_at(self.mask, place)) && agrees_at(self.predicate, place)
    }
}
