// What a case file's lines came to so far, but for their contents: how many there were, the first bad one, what was met of each kind, the constants;
// and the verdict of them all.

#![tactic(auto)]

ghost use Rattle.std.specs.Prelude.{◌≡◌};
ghost use Rattle.tally.specs.Mirror.Kinds.{code_of, Decodes};
ghost use Rattle.tally.specs.Mirror.Lines.{nothing, next, bad_line, good_line, met_of, length_of, counted, sized, based, masked, registers_sized};
ghost use Rattle.tally.specs.Mirror.Verdicts.{taint_length, number_of, position_of, verdict_of, judgement};

// One place for each kind from 0x00 to 0x0b.
const KINDS: usize = 12;

// The bytes of a register where no frame says it.
const OLD_REGISTER_SIZE: u8 = 32;

// The kinds of frames, by the byte that a frame begins with.
#[derive(Clone, Copy)]
pub enum Kind {
    Registers = 1,
    Variable = 2,
    Predicate = 3,
    Surface = 4,
    Memory = 5,
    Mask = 6,
    Kernel = 7,
    RegisterTaint = 8,
    SurfaceTaint = 9,
    MemoryTaint = 10,
    RegisterSize = 11,
}

// A byte that no frame begins with.
#[derive(Clone, Copy)]
pub struct UnknownKind;

impl TryFrom<u8> for Kind {
    type Error = UnknownKind;

    ghost try_from_gives = { Decodes };

    fn try_from(code: u8) -> Result<Self, UnknownKind> {
        match code {
            1 => Ok(Kind::Registers),
            2 => Ok(Kind::Variable),
            3 => Ok(Kind::Predicate),
            4 => Ok(Kind::Surface),
            5 => Ok(Kind::Memory),
            6 => Ok(Kind::Mask),
            7 => Ok(Kind::Kernel),
            8 => Ok(Kind::RegisterTaint),
            9 => Ok(Kind::SurfaceTaint),
            10 => Ok(Kind::MemoryTaint),
            11 => Ok(Kind::RegisterSize),
            _ => Err(UnknownKind),
        }
    }
}

impl Kind {
    // The byte that a frame of this kind begins with.
    pub fn code(self) -> u8
        ensures { result ≡ code_of self }
    {
        self as u8
    }
}

// The constants that frames set: the address of the first byte of memory, the execution mask, and the bytes of a register.
#[derive(Clone, Copy)]
pub struct Settings {
    pub base: u64,
    pub mask: u32,
    pub register_size: u8,
}

// What the lines so far came to, but for the contents, which stand in the caller's buffers.
#[derive(Clone, Copy)]
pub struct Case {
    // how many lines there were, and the number of the first bad one; 0 if none is bad (the definitions' `bad_line`, `verdict_of` and `line_read`
    // ask whether it is above 0; an Option would need an invariant that no Some is 0)
    pub lines: u32,
    pub bad: u32,
    // whether a content did not fit its buffer, which is 13
    pub full: bool,
    // for each kind, how many frames of it were met (of 02, 03 and 04: stored), and how many bytes their contents have together (two arrays, as
    // in the definitions' `counted` and `sized`)
    pub met: [usize; KINDS],
    pub lengths: [usize; KINDS],
    pub settings: Settings,
}

// The buffers of the frames that come once at most, lent to be filled. The references stand side by side, so that whoever lent the slices gets them
// back.
#[derive(Drop)]
pub struct ContentBuffers<'a> {
    pub registers: &'a mut [u8],
    pub memory: &'a mut [u8],
    pub kernel: &'a mut [u8],
    pub register_taint: &'a mut [u8],
    pub surface_taint: &'a mut [u8],
    pub memory_taint: &'a mut [u8],
}

// Those of the frames that repeat: types, start bytes and element counts of the variables; bits and element counts of the predicates; the bytes of
// all surfaces, one after the other, and the length of each.
// Slice beside slice and no records: a run whose slices differ in length answers 13 (`variables_good`, `predicates_good`).
#[derive(Drop)]
pub struct TableBuffers<'a> {
    pub types: &'a mut [u8],
    pub starts: &'a mut [u16],
    pub counts: &'a mut [u16],
    pub predicate_bits: &'a mut [u32],
    pub predicate_counts: &'a mut [u8],
    pub surface_bytes: &'a mut [u8],
    pub surface_lengths: &'a mut [u16],
}

// The same tables, lent to be read.
// A struct of its own: a field's reference is either `&` or `&mut`.
#[derive(Clone, Copy)]
pub struct TableViews<'a> {
    pub types: &'a [u8],
    pub starts: &'a [u16],
    pub counts: &'a [u16],
    pub predicate_bits: &'a [u32],
    pub predicate_counts: &'a [u8],
    pub surface_bytes: &'a [u8],
    pub surface_lengths: &'a [u16],
}

// Why a case is not run.
#[derive(Clone, Copy)]
pub enum Unfit {
    // 14: a line is bad; the first one, counted from 1
    BadLine { line: u32 },
    // 13: a content did not fit its buffer
    Full,
}

impl Unfit {
    // The number that is given back.
    pub fn number(self) -> u8
        ensures { result ≡ number_of self }
    {
        match self {
            Unfit::BadLine { .. } => 14,
            Unfit::Full => 13,
        }
    }

    // The position that goes with it.
    pub fn position(self) -> u32
        ensures { result ≡ position_of self }
    {
        match self {
            Unfit::BadLine { line } => line,
            Unfit::Full => 0,
        }
    }
}

// The number of the line after so many; it stays at the largest one.
#[tactic(auto, unfolding(crate::specs::Mirror::Lines::next))]
fn next_line(lines: u32) -> u32
    ensures { result ≡ next lines }
{
    lines.saturating_add(1)
}

impl Case {
    // Before the first line.
    #[tactic(auto, unfolding(crate::specs::Mirror::Lines::nothing))]
    pub fn new() -> Case
        ensures { result ≡ nothing }
    {
        Case {
            lines: 0,
            bad: 0,
            full: false,
            met: [0; KINDS],
            lengths: [0; KINDS],
            settings: Settings {
                base: 0,
                mask: 0,
                register_size: OLD_REGISTER_SIZE,
            },
        }
    }

    #[tactic(auto, unfolding(crate::specs::Mirror::Lines::bad_line))]
    pub fn bad_line(self) -> Case
        ensures { result ≡ bad_line self }
    {
        let number = next_line(self.lines);
        Case {
            lines: number,
            bad: number,
            ..self
        }
    }

    #[tactic(auto, unfolding(crate::specs::Mirror::Lines::good_line))]
    pub fn good_line(self, fits: bool) -> Case
        ensures { result ≡ good_line fits self }
    {
        Case {
            lines: next_line(self.lines),
            full: self.full | !fits,
            ..self
        }
    }

    // How many frames with this byte were met; none if it has no place.
    // Those that end in `_at` are by any byte, as `met_of`, `length_of`, `counted`, `sized` and `taint_length` are: their clauses hold of bytes that are no
    // kind. `met` and `length` differ in their array alone; a choice of it would be no shorter.
    #[tactic(auto, unfolding(crate::specs::Mirror::Lines::met_of))]
    pub fn met_at(self, code: u8) -> usize
        ensures { result ≡ met_of code self }
    {
        self.met.get(usize::from(code)).copied().unwrap_or(0)
    }

    // How many bytes their contents have together, likewise.
    #[tactic(auto, unfolding(crate::specs::Mirror::Lines::length_of))]
    pub fn length_at(self, code: u8) -> usize
        ensures { result ≡ length_of code self }
    {
        self.lengths.get(usize::from(code)).copied().unwrap_or(0)
    }

    // How many frames of a kind were met.
    pub fn met(self, kind: Kind) -> usize
        ensures { result ≡ met_of (code_of kind) self }
    {
        self.met_at(kind.code())
    }

    // How many bytes their contents have together.
    pub fn length(self, kind: Kind) -> usize
        ensures { result ≡ length_of (code_of kind) self }
    {
        self.length_at(kind.code())
    }

    // How many frames with this byte were met, set; one without a place sets nothing.
    #[tactic(auto, unfolding(crate::specs::Mirror::Lines::counted))]
    pub fn with_met_at(self, code: usize, number: usize) -> Case
        ensures { result ≡ counted code number self }
    {
        let mut case = self;
        if code < KINDS {
            case.met[code] = number;
        }
        case
    }

    // How many bytes their contents have together, likewise.
    #[tactic(auto, unfolding(crate::specs::Mirror::Lines::sized))]
    pub fn with_length_at(self, code: usize, length: usize) -> Case
        ensures { result ≡ sized code length self }
    {
        let mut case = self;
        if code < KINDS {
            case.lengths[code] = length;
        }
        case
    }

    // How many frames of a kind were met, set.
    pub fn with_met(self, kind: Kind, number: usize) -> Case
        ensures { result ≡ counted (code_of kind) number self }
    {
        self.with_met_at(usize::from(kind.code()), number)
    }

    // How many bytes their contents have together, likewise.
    pub fn with_length(self, kind: Kind, length: usize) -> Case
        ensures { result ≡ sized (code_of kind) length self }
    {
        self.with_length_at(usize::from(kind.code()), length)
    }

    #[tactic(auto, unfolding(crate::specs::Mirror::Lines::based))]
    pub fn with_base(self, base: u64) -> Case
        ensures { result ≡ based base self }
    {
        let mut case = self;
        case.settings.base = base;
        case
    }

    #[tactic(auto, unfolding(crate::specs::Mirror::Lines::masked))]
    pub fn with_mask(self, mask: u32) -> Case
        ensures { result ≡ masked mask self }
    {
        let mut case = self;
        case.settings.mask = mask;
        case
    }

    #[tactic(auto, unfolding(crate::specs::Mirror::Lines::registers_sized))]
    pub fn with_register_size(self, register_size: u8) -> Case
        ensures { result ≡ registers_sized register_size self }
    {
        let mut case = self;
        case.settings.register_size = register_size;
        case
    }

    // How many bytes of taint a buffer has, by the bytes of the two frames: an absent frame is as long as the buffer.
    #[tactic(auto, unfolding(crate::specs::Mirror::Verdicts::taint_length))]
    pub fn taint_length_at(self, taint: u8, buffer: u8) -> usize
        ensures { result ≡ taint_length taint buffer self }
    {
        if 0 < self.met_at(taint) {
            self.length_at(taint)
        } else {
            self.length_at(buffer)
        }
    }

    // The same by the kinds of the two frames.
    pub fn taint_length(self, taint: Kind, buffer: Kind) -> usize
        ensures { result ≡ taint_length (code_of taint) (code_of buffer) self }
    {
        self.taint_length_at(taint.code(), buffer.code())
    }

    // What a case comes to before it is run: 14 with the first bad line, 13, or nothing against it.
    #[tactic(auto, unfolding(crate::specs::Mirror::Verdicts::verdict_of))]
    pub fn judge(self) -> Result<(), Unfit>
        ensures { judgement result ≡ verdict_of self }
    {
        if 0 < self.bad {
            return Err(Unfit::BadLine { line: self.bad });
        }
        if self.full {
            return Err(Unfit::Full);
        }
        Ok(())
    }
}
