// All that a run tests of an instruction before it reads data, and what is left to run of one that passes.

#![tactic(auto)]

ghost use Rattle.std.specs.Prelude.{◌≡◌};
ghost use Rattle.tables.specs.Borrowed.{variables_of, tables_of};
ghost use Rattle.surface_table.specs.Surfaces.{surfaces};
ghost use Rattle.operands.specs.Elements.{located_as};
ghost use Rattle.operands.specs.Operands.{located_vector, located_raw};
ghost use Rattle.plan.specs.Control.{control_of};
ghost use Rattle.plan.specs.Planned.{planned, plan_of, operation_of, Gives};
ghost use Rattle.plan.specs.Plans.{plain_plan};
ghost use Rattle.plan.specs.Checked.{checked_shl, checked_gather, checked_scatter, checked_send, checked};

use decoder::{Gather, Instruction, RawSend, Scatter, Shl};
use field_groups::Control;
use operand_fields::{Operand, Raw};
use operands::{Elements, TypeRule};
use refusal::{OperandRefusal, Refusal};
use region_rules::Role;
use tables::{Tables, Variables};

// What is left to run.
#[derive(Clone, Copy)]
pub enum Operation {
    Shl,
    Gather,
    Scatter,
}

// What a run needs of an accepted instruction.
// SHL: left is Src0, right Src1, payload Dst. Gather: Offset, Element_offset, Dst. Scatter: Address, Element_offset, Src.
// One struct for the three, as the definitions of the effects have one record for them (`Rattle.plan.specs.Plan`); what only another operation has is 0.
#[derive(Clone, Copy)]
pub struct Plan {
    pub operation: Operation,
    pub control: Control,
    // the predicate's, 0 without one
    pub bits: u32,
    pub left: Elements,
    pub right: Elements,
    pub payload: Elements,
    // a gather's block: 1, 2 or 4
    pub bytes: u8,
    // a scatter's, and the dwords from one's data to the next one's
    pub channels: u8,
    pub stride: u8,
    // a gather's surface in the surface buffer
    pub start: u32,
    pub length: u32,
}

#[tactic(auto, unfolding(crate::specs::Control::control_of))]
fn control_of(instruction: Instruction) -> Control
    ensures { result ≡ control_of instruction }
{
    match instruction {
        Instruction::Shl(i) => i.control,
        Instruction::Gather(i) => i.control,
        Instruction::Scatter(i) => i.control,
        Instruction::RawSend(i) => i.control,
    }
}

// A refusal names the operand by its place.
#[tactic(auto, using(refusal::proofs::RuleLaws::operand_some), unfolding(operands::specs::Elements::refused_operand))]
fn at_place(place: u8, found: Result<Elements, OperandRefusal>) -> Result<Elements, Refusal>
    ensures { Gives place (located_as found) result }
{
    found.map_err(|refusal| refusal.at(place))
}

// How an instruction's operands are tested: by registers of this size, in this table, for its exec byte.
#[derive(Clone, Copy)]
struct Tests<'a> {
    register_size: u8,
    variables: Variables<'a>,
    control: Control,
    // the predicate's, 0 without one
    bits: u32,
}

impl Tests<'_> {
    // The vector operand or scalar at a place.
    fn vector(
        self,
        place: u8,
        role: Role,
        rule: TypeRule,
        operand: Operand,
    ) -> Result<Elements, Refusal>
        ensures { Gives place (located_vector self.entry.register_size (variables_of self.entry.variables) role rule self.entry.control.exec operand) result }
    {
        let found = operands::locate_vector(
            self.register_size,
            self.variables,
            role,
            rule,
            self.control.exec,
            operand,
        );
        at_place(place, found)
    }

    // The raw operand at a place, of which so many bytes are needed.
    fn raw(self, place: u8, rule: TypeRule, bytes: u32, raw: Raw) -> Result<Elements, Refusal>
        ensures { Gives place (located_raw (variables_of self.entry.variables) rule bytes raw) result }
    {
        at_place(
            place,
            operands::locate_raw(self.variables, rule, bytes, raw),
        )
    }

    // What all plans have.
    fn plan(self, operation: Operation, left: Elements, right: Elements, payload: Elements) -> Plan
        ensures { plan_of result ≡ plain_plan (operation_of operation) self.entry.control self.entry.bits left right payload }
    {
        Plan {
            operation,
            control: self.control,
            bits: self.bits,
            left,
            right,
            payload,
            bytes: 0,
            channels: 0,
            stride: 0,
            start: 0,
            length: 0,
        }
    }
}

// That the tests are of this control is a fact and no type: each instruction holds its own, as `checked_shl` and the like read it.
#[tactic(auto, unfolding(crate::specs::Checked::checked_shl, crate::specs::Checked::shl_dst, crate::specs::Checked::shl_src0, crate::specs::Checked::shl_src1, crate::specs::Plans::tested, crate::specs::Plans::shl_plan))]
fn check_shl(tests: Tests<'_>, instruction: Shl) -> Result<Plan, Refusal>
    requires { tests.control ≡ instruction.control }
    ensures { planned result ≡ checked_shl tests.entry.register_size (variables_of tests.entry.variables) tests.entry.bits instruction }
{
    let payload = tests.vector(
        1,
        Role::Destination,
        TypeRule::Shift,
        instruction.destination,
    )?;
    let left = tests.vector(2, Role::Source, TypeRule::Shift, instruction.source)?;
    let right = tests.vector(3, Role::Source, TypeRule::Shift, instruction.count)?;
    Ok(tests.plan(Operation::Shl, left, right, payload))
}

// The surface's 5, then the operands.
#[tactic(auto, using(surface_table::proofs::SurfacePlaces::start_small), unfolding(crate::specs::Checked::checked_gather, crate::specs::Checked::checked_gather_operands, crate::specs::Checked::surface_part, crate::specs::Checked::gather_offset, crate::specs::Checked::gather_element_offset, crate::specs::Checked::gather_dst, crate::specs::Plans::tested, crate::specs::Plans::gather_plan))]
fn check_gather(
    tests: Tests<'_>,
    surface_lengths: &[u16],
    instruction: Gather,
) -> Result<Plan, Refusal>
    requires { tests.control ≡ instruction.control }
    ensures { planned result ≡ checked_gather tests.entry.register_size (variables_of tests.entry.variables) (surfaces surface_lengths.now) tests.entry.bits instruction }
{
    let surface = instruction.access.surface;
    if usize::from(surface) >= surface_lengths.len() {
        return Err(Refusal::Missing);
    }
    let needed = payloads::elements_needed(instruction.control.exec, element_types::UD);
    let left = tests.vector(1, Role::Scalar, TypeRule::Offset, instruction.offset)?;
    let right = tests.raw(2, TypeRule::Offset, needed, instruction.element_offset)?;
    let payload = tests.raw(3, TypeRule::Dword, needed, instruction.destination)?;
    Ok(Plan {
        bytes: payloads::block_bytes(instruction.access.num_blocks),
        // `as`: the number is small (`start_small`), and a `try_from` would have an Err that no value reaches
        start: surface_table::surface_start(surface_lengths, surface) as u32,
        length: u32::from(surface_table::surface_length(surface_lengths, surface)),
        ..tests.plan(Operation::Gather, left, right, payload)
    })
}

#[tactic(auto, unfolding(crate::specs::Checked::checked_scatter, crate::specs::Checked::scatter_address, crate::specs::Checked::scatter_element_offset, crate::specs::Checked::scatter_src, crate::specs::Plans::tested, crate::specs::Plans::scatter_plan))]
fn check_scatter(tests: Tests<'_>, instruction: Scatter) -> Result<Plan, Refusal>
    requires { tests.control ≡ instruction.control }
    ensures { planned result ≡ checked_scatter tests.entry.register_size (variables_of tests.entry.variables) tests.entry.bits instruction }
{
    let exec = instruction.control.exec;
    let channels = instruction.channels;
    let offsets = payloads::elements_needed(exec, element_types::UQ);
    let stride = payloads::channel_stride(tests.register_size, exec);
    let needed = payloads::scatter_needed(stride, exec, channels);
    let left = tests.vector(1, Role::Scalar, TypeRule::Address, instruction.address)?;
    let right = tests.raw(2, TypeRule::Address, offsets, instruction.element_offset)?;
    let payload = tests.raw(3, TypeRule::Dword, needed, instruction.source)?;
    Ok(Plan {
        channels,
        stride,
        ..tests.plan(Operation::Scatter, left, right, payload)
    })
}

// The operands of a RAW_SEND, then 9.
#[tactic(auto, unfolding(crate::specs::Checked::checked_send, crate::specs::Checked::send_desc, crate::specs::Checked::send_src, crate::specs::Checked::send_dst, crate::specs::Plans::tested))]
fn check_send(tests: Tests<'_>, instruction: RawSend) -> Result<Plan, Refusal>
    requires { tests.control ≡ instruction.control }
    ensures { planned result ≡ checked_send tests.entry.register_size (variables_of tests.entry.variables) instruction }
{
    let message = instruction.message;
    let sent = payloads::registers_needed(tests.register_size, message.num_src);
    let received = payloads::registers_needed(tests.register_size, message.num_dst);
    tests.vector(1, Role::Scalar, TypeRule::Offset, instruction.descriptor)?;
    tests.raw(2, TypeRule::Any, sent, instruction.source)?;
    tests.raw(3, TypeRule::Any, received, instruction.destination)?;
    Err(Refusal::Send)
}

// What is left to run of an instruction, by registers of this size, or its refusal.
#[tactic(auto, using(refusal::proofs::RuleLaws::number_some), unfolding(crate::specs::Checked::checked, crate::specs::Checked::checked_operands, crate::specs::Plans::tested, crate::specs::Control::control_of))]
pub fn check(
    register_size: u8,
    tables: Tables<'_>,
    instruction: Instruction,
) -> Result<Plan, Refusal>
    ensures { planned result ≡ checked register_size (tables_of tables.entry) instruction }
{
    let control = control_of(instruction);
    let predicate = tables
        .predicates
        .record_at(predicate_field::predicate_id(control.pred));
    controls::control_refusal(predicate, control)?;
    let tests = Tests {
        register_size,
        variables: tables.variables,
        control,
        bits: controls::bits_named(predicate, control.pred),
    };
    match instruction {
        Instruction::Shl(i) => check_shl(tests, i),
        Instruction::Gather(i) => check_gather(tests, tables.surface_lengths, i),
        Instruction::Scatter(i) => check_scatter(tests, i),
        Instruction::RawSend(i) => check_send(tests, i),
    }
}
