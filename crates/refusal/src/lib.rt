// Why something is refused: the number that is given back, and what goes with it, the operand that a region's refusal is about or a scatter's first
// offending pair.

#![tactic(auto)]

ghost use Rattle.std.specs.Prelude.{◌≡◌};
ghost use Rattle.refusal.specs.declared.OperandRefusal.TheVariants as operand;
ghost use Rattle.refusal.specs.Details.{is_some, operand_detail};
ghost use Rattle.refusal.specs.Numbers.{rule_number, operand_number, number_of, detail_of};

// An operand by its place in field order, from 1; a pair by channel and lane.
// `None` is a variant, and no Option stands around: `detail_of`, `operand_detail` and `values_of` give a Detail of every refusal.
#[derive(Clone, Copy)]
pub enum Detail {
    None,
    Operand(u8),
    Pair(u8, u8),
}

impl Detail {
    // Whether anything is told.
    #[tactic(auto, unfolding(crate::specs::Details::is_some))]
    pub fn is_some(self) -> bool
        ensures { result ≡ is_some self }
    {
        match self {
            Detail::None => false,
            Detail::Operand(_) | Detail::Pair(_, _) => true,
        }
    }

    // What the refusal of the operand at a place tells, by its number, of any number: 20 to 25 name the operand.
    #[tactic(auto, unfolding(crate::specs::Details::operand_detail, crate::specs::Details::names_operand))]
    pub fn of_operand(number: u8, place: u8) -> Detail
        ensures { result ≡ operand_detail number place }
    {
        if 20 <= number && number <= 25 {
            Detail::Operand(place)
        } else {
            Detail::None
        }
    }
}

// The rule that a region word breaks.
#[derive(Clone, Copy)]
pub enum RegionRule {
    // 20: a width of 0 or 32
    Width,
    // 21: a horizontal stride over 4
    Stride,
    // 22: a width over ExecSize
    WidthOverSize,
    // 23: a destination's stride of 0
    ZeroStride,
    // 24: Null where none may stand, or not Null where it must
    Null,
    // 25: not the region of a scalar
    Scalar,
}

impl RegionRule {
    // The number that is given back.
    pub fn number(self) -> u8
        ensures { result ≡ rule_number self }
    {
        match self {
            RegionRule::Width => 20,
            RegionRule::Stride => 21,
            RegionRule::WidthOverSize => 22,
            RegionRule::ZeroStride => 23,
            RegionRule::Null => 24,
            RegionRule::Scalar => 25,
        }
    }
}

// Why an operand is refused: of a class or a type that its place does not have, not in its table, by its region, or not in its variable.
#[derive(Clone, Copy)]
pub enum OperandRefusal {
    Unfit,
    Missing,
    Region(RegionRule),
    Outside,
}

impl From<RegionRule> for OperandRefusal {
    ghost from_gives = { λ r e. e ≡ operand.Region r };

    fn from(rule: RegionRule) -> OperandRefusal {
        OperandRefusal::Region(rule)
    }
}

// Why an instruction or a run is refused. An operand is named by its place in field order, from 1.
#[derive(Clone, Copy)]
pub enum Refusal {
    // 1: a field is not whole
    Ends,
    // 2: an opcode or sub-opcode that is not listed
    Opcode,
    // 3: a value that is reserved
    Reserved,
    // 4: a class, modifier or type that the place does not have
    Unfit,
    // 5: not in its table
    Missing,
    // 7: not in its variable, or over two registers
    Outside,
    // 8: offset plus ExecSize is over 32
    Lanes,
    // 9: a RAW_SEND
    Send,
    // 10: an address is marked
    Doubtful,
    // 11: an address is no multiple of 4
    Misaligned { channel: u8, lane: u8 },
    // 12: an address is not in the window
    OutsideWindow { channel: u8, lane: u8 },
    // 13: tables and lengths
    Tables,
    // 15: the buffer has no room
    Room,
    // 17: a predicate has fewer elements than the lanes that ask it
    Predicate,
    // 20 to 25
    Region { rule: RegionRule, operand: u8 },
}

impl OperandRefusal {
    // The refusal of the operand at a place.
    #[tactic(auto, using(crate::proofs::RuleLaws::region_named), unfolding(crate::specs::Details::operand_detail, crate::specs::Details::names_operand))]
    pub fn at(self, place: u8) -> Refusal
        ensures number { number_of result ≡ operand_number self }
        ensures detail { detail_of result ≡ operand_detail (operand_number self) place }
    {
        match self {
            OperandRefusal::Unfit => Refusal::Unfit,
            OperandRefusal::Missing => Refusal::Missing,
            OperandRefusal::Region(rule) => Refusal::Region {
                rule,
                operand: place,
            },
            OperandRefusal::Outside => Refusal::Outside,
        }
    }
}

impl Refusal {
    // The number that is given back.
    pub fn number(self) -> u8
        ensures { result ≡ number_of self }
    {
        match self {
            Refusal::Ends => 1,
            Refusal::Opcode => 2,
            Refusal::Reserved => 3,
            Refusal::Unfit => 4,
            Refusal::Missing => 5,
            Refusal::Outside => 7,
            Refusal::Lanes => 8,
            Refusal::Send => 9,
            Refusal::Doubtful => 10,
            Refusal::Misaligned { .. } => 11,
            Refusal::OutsideWindow { .. } => 12,
            Refusal::Tables => 13,
            Refusal::Room => 15,
            Refusal::Predicate => 17,
            Refusal::Region { rule, .. } => rule.number(),
        }
    }

    // What goes with the number.
    pub fn detail(self) -> Detail
        ensures { result ≡ detail_of self }
    {
        match self {
            Refusal::Misaligned { channel, lane } | Refusal::OutsideWindow { channel, lane } => {
                Detail::Pair(channel, lane)
            }
            Refusal::Region { operand, .. } => Detail::Operand(operand),
            _ => Detail::None,
        }
    }
}
