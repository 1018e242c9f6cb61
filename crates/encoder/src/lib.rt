// The encoder: an instruction into the caller's buffer, each field judged by the rule that decoding judges it by.

#![tactic(auto)]

ghost use Rattle.std.specs.Prelude.{◌≡◌, length};
ghost use Rattle.little_endian.specs.LittleEndian.{bytes_of};
ghost use Rattle.operand_fields.specs.declared.Operand.TheVariants as operand;
ghost use Rattle.field_groups.specs.Layout.{control_fields, access_fields, message_fields};
ghost use Rattle.operand_fields.specs.Layout.{high_field, operand_fields, raw_fields};
ghost use Rattle.decoder.specs.Format.{shl_fields, gather_fields, scatter_fields, raw_send_fields, instruction_fields};
ghost use Rattle.encoder.specs.Mirror.Draft.{empty_draft, with_byte, with_bytes, with_field, with_fields};
ghost use Rattle.reader.specs.Reply.{outcome};
ghost use Rattle.encoder.specs.Encoding.{encoded_in, encoded_into};

use decoder::{Gather, Instruction, RawSend, Scatter, Shl};
use field_groups::{Access, Control, Message};
use fields::{ByteRule, Field, FieldRule, TagRule, WordRule};
use operand_fields::{General, Immediate, Operand, Raw};
use refusal::Refusal;

// An encoding that grows field by field, up to the first field that is refused. No draft has more than 34 bytes; without a heap they stand in a room
// of 64 with their number beside.
#[derive(Clone, Copy)]
struct Draft {
    length: usize,
    bytes: [u8; 64],
}

// An immediate's high word, which stands in the bytes only where its type has one.
#[tactic(auto, unfolding(operand_fields::specs::Layout::high_field))]
fn high_field(code: u8, high: u32) -> Field
    ensures { result ≡ high_field code high }
{
    if element_types::has_high_word(code) {
        Field::Dword(high)
    } else {
        Field::Lacking(high)
    }
}

impl Draft {
    #[tactic(auto, unfolding(crate::specs::Mirror::Draft::empty_draft))]
    fn empty() -> Draft
        ensures { result ≡ empty_draft }
    {
        Draft {
            length: 0,
            bytes: [0; 64],
        }
    }

    #[tactic(auto, unfolding(crate::specs::Mirror::Draft::with_byte))]
    fn with_byte(self, v: u8) -> Draft
        ensures { result ≡ with_byte v self }
    {
        let at = self.length;
        if at < 64 {
            let mut bytes = self.bytes;
            bytes[at] = v;
            Draft {
                length: at + 1,
                bytes,
            }
        } else {
            self
        }
    }

    #[tactic(auto, using(crate::proofs::DraftLaws::one_more), unfolding(crate::specs::Mirror::Draft::with_bytes))]
    fn with_bytes(self, bytes: &[u8]) -> Draft
        ensures { result ≡ with_bytes bytes.now self }
    {
        let mut draft = self;
        for &v in bytes {
            draft = draft.with_byte(v);
        }
        draft
    }

    #[tactic(auto, using(refusal::proofs::RuleLaws::number_some), unfolding(crate::specs::Mirror::Draft::with_field, crate::specs::Mirror::Draft::with_bytes, fields::specs::Layout::field_bytes, fields::specs::Layout::field_refusal, fields::specs::Rules::judged, little_endian::specs::LittleEndian::bytes_of))]
    fn with_field(self, field: Field) -> Result<Draft, Refusal>
        ensures { outcome result ≡ with_field field self }
    {
        match field {
            Field::Byte(rule, v) => {
                rule.judge(v)?;
                Ok(self.with_bytes(&[v]))
            }
            Field::Word(rule, v) => {
                rule.judge(v)?;
                Ok(self.with_bytes(&v.to_le_bytes()))
            }
            Field::Dword(v) => Ok(self.with_bytes(&v.to_le_bytes())),
            Field::Lacking(v) => {
                fields::judge(v == 0, Refusal::Reserved)?;
                Ok(self)
            }
        }
    }

    #[tactic(auto, unfolding(crate::specs::Mirror::Draft::with_fields, field_groups::specs::Layout::control_fields))]
    fn with_control(self, rule: ByteRule, x: Control) -> Result<Draft, Refusal>
        ensures { outcome result ≡ with_fields (control_fields rule x) self }
    {
        self.with_field(Field::Byte(rule, x.exec))?
            .with_field(Field::Word(WordRule::Predicate, x.pred))
    }

    #[tactic(auto, unfolding(crate::specs::Mirror::Draft::with_fields, operand_fields::specs::Layout::operand_fields))]
    fn with_general(self, rule: TagRule, x: General) -> Result<Draft, Refusal>
        ensures { outcome result ≡ with_fields (operand_fields rule (operand.General x)) self }
    {
        self.with_field(Field::Byte(ByteRule::Tag(rule), fields::GENERAL))?
            .with_field(Field::Word(WordRule::Free, x.index))?
            .with_field(Field::Byte(ByteRule::Free, x.row))?
            .with_field(Field::Byte(ByteRule::Free, x.column))?
            .with_field(Field::Word(WordRule::Region, x.region))
    }

    #[tactic(auto, unfolding(crate::specs::Mirror::Draft::with_fields, operand_fields::specs::Layout::operand_fields))]
    fn with_immediate(self, rule: TagRule, x: Immediate) -> Result<Draft, Refusal>
        ensures { outcome result ≡ with_fields (operand_fields rule (operand.Immediate x)) self }
    {
        self.with_field(Field::Byte(ByteRule::Tag(rule), fields::IMMEDIATE))?
            .with_field(Field::Byte(ByteRule::ImmediateType, x.code))?
            .with_field(Field::Dword(x.low))?
            .with_field(high_field(x.code, x.high))
    }

    // `rule` is the place's rule of its tag.
    fn with_operand(self, rule: TagRule, x: Operand) -> Result<Draft, Refusal>
        ensures { outcome result ≡ with_fields (operand_fields rule x) self }
    {
        match x {
            Operand::General(general) => self.with_general(rule, general),
            Operand::Immediate(immediate) => self.with_immediate(rule, immediate),
        }
    }

    #[tactic(auto, unfolding(crate::specs::Mirror::Draft::with_fields, operand_fields::specs::Layout::raw_fields))]
    fn with_raw(self, x: Raw) -> Result<Draft, Refusal>
        ensures { outcome result ≡ with_fields (raw_fields x) self }
    {
        self.with_field(Field::Word(WordRule::Free, x.index))?
            .with_field(Field::Word(WordRule::Free, x.offset))
    }

    #[tactic(auto, unfolding(crate::specs::Mirror::Draft::with_fields, field_groups::specs::Layout::access_fields))]
    fn with_access(self, x: Access) -> Result<Draft, Refusal>
        ensures { outcome result ≡ with_fields (access_fields x) self }
    {
        self.with_field(Field::Byte(ByteRule::Free, x.block_size))?
            .with_field(Field::Byte(ByteRule::NumBlocks, x.num_blocks))?
            .with_field(Field::Word(WordRule::Free, x.scale))?
            .with_field(Field::Byte(ByteRule::Free, x.surface))
    }

    #[tactic(auto, unfolding(crate::specs::Mirror::Draft::with_fields, field_groups::specs::Layout::message_fields))]
    fn with_message(self, x: Message) -> Result<Draft, Refusal>
        ensures { outcome result ≡ with_fields (message_fields x) self }
    {
        self.with_field(Field::Dword(x.extended))?
            .with_field(Field::Byte(ByteRule::NumSrc, x.num_src))?
            .with_field(Field::Byte(ByteRule::NumDst, x.num_dst))
    }
}

#[tactic(auto, using(crate::proofs::DraftLaws::with_append), unfolding(crate::specs::Mirror::Draft::with_fields, decoder::specs::Format::shl_fields))]
fn draft_shl(x: Shl) -> Result<Draft, Refusal>
    ensures { outcome result ≡ with_fields (shl_fields x) empty_draft }
{
    Draft::empty()
        .with_field(Field::Byte(ByteRule::Free, 0x24))?
        .with_control(ByteRule::Exec, x.control)?
        .with_operand(TagRule::Destination, x.destination)?
        .with_operand(TagRule::Source, x.source)?
        .with_operand(TagRule::Source, x.count)
}

#[tactic(auto, using(crate::proofs::DraftLaws::with_append), unfolding(crate::specs::Mirror::Draft::with_fields, decoder::specs::Format::gather_fields))]
fn draft_gather(x: Gather) -> Result<Draft, Refusal>
    ensures { outcome result ≡ with_fields (gather_fields x) empty_draft }
{
    Draft::empty()
        .with_field(Field::Byte(ByteRule::Free, 0x78))?
        .with_control(ByteRule::Exec, x.control)?
        .with_access(x.access)?
        .with_operand(TagRule::Scalar, x.offset)?
        .with_raw(x.element_offset)?
        .with_raw(x.destination)
}

#[tactic(auto, using(crate::proofs::DraftLaws::with_append), unfolding(crate::specs::Mirror::Draft::with_fields, decoder::specs::Format::scatter_fields))]
fn draft_scatter(x: Scatter) -> Result<Draft, Refusal>
    ensures { outcome result ≡ with_fields (scatter_fields x) empty_draft }
{
    Draft::empty()
        .with_field(Field::Byte(ByteRule::Free, 0x4e))?
        .with_field(Field::Byte(ByteRule::Free, 0x07))?
        .with_control(ByteRule::ScatterExec, x.control)?
        .with_field(Field::Byte(ByteRule::Channels, x.channels))?
        .with_field(Field::Word(WordRule::Free, x.scale))?
        .with_operand(TagRule::Scalar, x.address)?
        .with_raw(x.element_offset)?
        .with_raw(x.source)
}

#[tactic(auto, using(crate::proofs::DraftLaws::with_append), unfolding(crate::specs::Mirror::Draft::with_fields, decoder::specs::Format::raw_send_fields))]
fn draft_raw_send(x: RawSend) -> Result<Draft, Refusal>
    ensures { outcome result ≡ with_fields (raw_send_fields x) empty_draft }
{
    Draft::empty()
        .with_field(Field::Byte(ByteRule::Free, 0x5d))?
        .with_field(Field::Byte(ByteRule::Modifiers, x.modifiers))?
        .with_control(ByteRule::Exec, x.control)?
        .with_message(x.message)?
        .with_operand(TagRule::Scalar, x.descriptor)?
        .with_raw(x.source)?
        .with_raw(x.destination)
}

#[tactic(auto, unfolding(decoder::specs::Format::instruction_fields))]
fn drafted(instruction: Instruction) -> Result<Draft, Refusal>
    ensures { outcome result ≡ with_fields (instruction_fields instruction) empty_draft }
{
    match instruction {
        Instruction::Shl(x) => draft_shl(x),
        Instruction::Gather(x) => draft_gather(x),
        Instruction::Scatter(x) => draft_scatter(x),
        Instruction::RawSend(x) => draft_raw_send(x),
    }
}

// Encodes at the buffer's start, and gives back the number of bytes. On a refusal the buffer is untouched; bytes past an encoding stay.
#[tactic(auto, using(crate::proofs::EncodeLaws::refused_in, crate::proofs::EncodeLaws::refused_into))]
pub fn encode(instruction: Instruction, buffer: &mut [u8]) -> Result<usize, Refusal>
    ensures answer { outcome result ≡ encoded_in (length buffer.old) instruction }
    ensures bytes { buffer.new ≡ encoded_into buffer.old instruction }
{
    let draft = drafted(instruction)?;
    let count = draft.length;
    if buffer.len() < count {
        return Err(Refusal::Room);
    }
    buffer[..count].copy_from_slice(&draft.bytes[..count]);
    Ok(count)
}
