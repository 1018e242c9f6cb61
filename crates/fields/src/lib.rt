// A field is one stored number of an instruction: the rule that judges it, and reading it by that rule.

#![tactic(auto)]

ghost use Rattle.std.specs.Prelude.{◌≡◌, ℕ, List, Ok, Err, cond};
ghost use Rattle.fields.specs.Tags.{tag_of};
ghost use Rattle.fields.specs.Rules.{judged, exec_good, scatter_exec_good, channels_good, source_count_good, predicate_good, region_good, class_good, tag_good, tag_refusal, byte_refusal, word_refusal};
ghost use Rattle.fields.specs.Reading.{judged_read, byte_field_at, word_field_at, dword_field_at};
ghost use Rattle.fields.specs.Reads.{byte_reads, word_reads};
ghost use Rattle.reader.specs.Reading.{stored_at};
ghost use Rattle.reader.specs.Reply.{Reply, Read, and_then, reply};
ghost use Rattle.refusal.specs.Numbers.{number_of, number_given};

use reader::{Cursor, Stored};
use refusal::Refusal;

// Whose tag it is: SHL's destination, a source of SHL, or a scalar (a gather's Offset, a scatter's Address, RAW_SEND's Desc).
#[derive(Clone, Copy)]
pub enum TagRule {
    Destination,
    Source,
    Scalar,
}

// Which stored byte it is, and so which rule judges it.
#[derive(Clone, Copy)]
pub enum ByteRule {
    Free,
    Exec,
    ScatterExec,
    NumBlocks,
    Channels,
    Modifiers,
    NumSrc,
    NumDst,
    Tag(TagRule),
    ImmediateType,
}

#[derive(Clone, Copy)]
pub enum WordRule {
    Free,
    Predicate,
    Region,
}

// The classes of an operand.
// Numbers and no enum: three bits may be any class, and `tag_of` and `class_good` are over all of them.
pub const GENERAL: u8 = 0;

pub const IMMEDIATE: u8 = 5;

// The parts of a tag: class, modifier, and the bits that are not named.
#[derive(Clone, Copy)]
pub struct Tag {
    pub class: u8,
    pub modifier: u8,
    pub unnamed: u8,
}

// One field with its number: what an instruction is laid out from. `Lacking` is the high word of an immediate whose type
// has none: it has no bytes, and must be 0.
#[derive(Clone, Copy)]
pub enum Field {
    Byte(ByteRule, u8),
    Word(WordRule, u16),
    Dword(u32),
    Lacking(u32),
}

// The refusal of what is not good.
pub fn judge<E: Copy>(good: bool, refusal: E) -> Result<(), E>
    ensures { result ≡ cond good (Ok tt) (Err refusal) }
{
    if good { Ok(()) } else { Err(refusal) }
}

#[tactic(auto, unfolding(crate::specs::Rules::exec_good))]
fn exec_good(v: u8) -> bool
    ensures { result ≡ exec_good v }
{
    !exec_byte::split(v).reserved
}

#[tactic(auto, unfolding(crate::specs::Rules::exec_good, crate::specs::Rules::scatter_exec_good))]
fn scatter_exec_good(v: u8) -> bool
    ensures { result ≡ scatter_exec_good v }
{
    let exec = exec_byte::split(v);
    !exec.reserved && (exec.size == 8 || exec.size == 16)
}

#[tactic(auto, unfolding(crate::specs::Rules::channels_good))]
fn channels_good(v: u8) -> bool
    ensures { result ≡ channels_good v }
{
    0 < v && v < 16
}

#[tactic(auto, unfolding(crate::specs::Rules::source_count_good))]
fn source_count_good(v: u8) -> bool
    ensures { result ≡ source_count_good v }
{
    1 <= v && v <= 15
}

// What a tag means is found here and nowhere else.
pub fn split_tag(v: u8) -> Tag
    ensures { result ≡ tag_of v }
{
    Tag {
        class: v % 8,
        modifier: v / 8 % 8,
        unnamed: v / 64,
    }
}

#[tactic(auto, unfolding(crate::specs::Rules::class_good))]
fn class_good(rule: TagRule, class: u8) -> bool
    ensures { result ≡ class_good rule class }
{
    match rule {
        TagRule::Destination => class == GENERAL,
        TagRule::Source | TagRule::Scalar => class == GENERAL || class == IMMEDIATE,
    }
}

#[tactic(auto, unfolding(crate::specs::Rules::tag_good))]
fn tag_good(rule: TagRule, v: u8) -> bool
    ensures { result ≡ tag_good rule v }
{
    let tag = split_tag(v);
    tag.modifier == 0 && class_good(rule, tag.class)
}

#[tactic(auto, unfolding(crate::specs::Rules::judged, crate::specs::Rules::tag_refusal))]
fn judge_tag(rule: TagRule, v: u8) -> Result<(), Refusal>
    ensures { number_given result ≡ tag_refusal rule v }
{
    judge(split_tag(v).unnamed == 0, Refusal::Reserved)?;
    judge(tag_good(rule, v), Refusal::Unfit)
}

#[tactic(auto, unfolding(crate::specs::Rules::predicate_good))]
fn predicate_good(v: u16) -> bool
    ensures { result ≡ predicate_good v }
{
    !predicate_field::predicate_reserved(v)
}

#[tactic(auto, unfolding(crate::specs::Rules::region_good))]
fn region_good(v: u16) -> bool
    ensures { result ≡ region_good v }
{
    v / 4096 == 0 && v % 16 < 8 && v / 16 % 16 < 8 && v / 256 % 16 < 8
}

// A rule of stored numbers of one width: what refuses a number, and reading one by the rule.
pub trait FieldRule: Copy {
    type Number: Stored;

    ghost refusal: { Self → Self.Number → ℕ };

    ghost field_at: { Self → List ℕ → ℕ → Reply (Read Self.Number) };

    fn judge(self, v: Self::Number) -> Result<(), Refusal>
        ensures { number_given result ≡ refusal self v };

    ghost reads: { (rule : Self) (s : List ℕ) (at : ℕ) → field_at rule s at ≡ and_then (stored_at Self.Number.WIDTH Self.Number.value_at s at) (judged_read (refusal rule)) };
}

impl FieldRule for ByteRule {
    type Number = u8;

    ghost refusal = { byte_refusal };

    ghost field_at = { byte_field_at };

    ghost reads = { byte_reads };

    #[tactic(auto, unfolding(crate::specs::Rules::byte_refusal, crate::specs::Rules::judged))]
    fn judge(self, v: u8) -> Result<(), Refusal> {
        let good = match self {
            ByteRule::Free => true,
            ByteRule::Exec => exec_good(v),
            ByteRule::ScatterExec => scatter_exec_good(v),
            ByteRule::NumBlocks => v < 3,
            ByteRule::Channels => channels_good(v),
            ByteRule::Modifiers => v < 2,
            ByteRule::NumSrc => source_count_good(v),
            ByteRule::NumDst => v <= 16,
            ByteRule::Tag(rule) => return judge_tag(rule, v),
            ByteRule::ImmediateType => element_types::is_listed(v),
        };
        judge(good, Refusal::Reserved)
    }
}

impl FieldRule for WordRule {
    type Number = u16;

    ghost refusal = { word_refusal };

    ghost field_at = { word_field_at };

    ghost reads = { word_reads };

    #[tactic(auto, unfolding(crate::specs::Rules::word_refusal, crate::specs::Rules::judged))]
    fn judge(self, v: u16) -> Result<(), Refusal> {
        match self {
            WordRule::Free => Ok(()),
            WordRule::Predicate => judge(predicate_good(v), Refusal::Reserved),
            WordRule::Region => judge(region_good(v), Refusal::Reserved),
        }
    }
}

// A field of one byte or of two, by its rule.
#[tactic(auto, using(refusal::proofs::RuleLaws::number_some), unfolding(crate::specs::Reading::judged_read))]
pub fn read<R: FieldRule>(
    kernel: &[u8],
    cursor: Cursor,
    rule: R,
) -> Result<(R::Number, Cursor), Refusal>
    ensures { reply result ≡ R.field_at rule kernel.now cursor.at }
{
    let (v, next) = cursor.read::<R::Number>(kernel)?;
    rule.judge(v)?;
    Ok((v, next))
}

// A field of four bytes; none of these has a rule.
#[tactic(auto, unfolding(crate::specs::Reading::dword_field_at, reader::specs::Reading::read_at))]
pub fn dword_field(kernel: &[u8], cursor: Cursor) -> Result<(u32, Cursor), Refusal>
    ensures { reply result ≡ dword_field_at kernel.now cursor.at }
{
    cursor.read::<u32>(kernel)
}
