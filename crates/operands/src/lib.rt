// One operand of an instruction: refused by its tests, or where its elements are.

#![tactic(auto)]

ghost use Rattle.std.specs.Prelude.{◌≡◌, ◌<◌};
ghost use Rattle.element_types.specs.Types.{size_of};
ghost use Rattle.tables.specs.Borrowed.{variables_of};
ghost use Rattle.operands.specs.Allowed.{type_allowed};
ghost use Rattle.operands.specs.Variables.{variable_found};
ghost use Rattle.operands.specs.Elements.{low_bytes, located_as};
ghost use Rattle.operands.specs.Operands.{general_of, located_general, immediate_of, located_immediate, located_vector, raw_good, raw_of, located_raw};

use operand_fields::{General, Immediate, Operand, Raw};
use refusal::OperandRefusal;
use region_rules::Role;
use regions::Variable;
use tables::Variables;

// Which element types an operand may have.
#[derive(Clone, Copy)]
pub enum TypeRule {
    Shift,
    Offset,
    Dword,
    Address,
    Any,
}

// Where an operand's elements are: the byte of each lane's element in the register file, or the immediate's number.
// A struct and no enum of the two: a destination and a raw operand have positions alone, and each loop over their lanes would match on a number that
// can't be there.
#[derive(Clone, Copy)]
pub struct Elements {
    pub size: u8,
    pub signed: bool,
    pub immediate: bool,
    pub value: u64,
    pub at: [u32; 32],
}

#[tactic(auto, unfolding(crate::specs::Allowed::type_allowed, crate::specs::Allowed::shift_type, crate::specs::Allowed::dword_type))]
fn type_allowed(rule: TypeRule, code: u8) -> bool
    ensures { result ≡ type_allowed rule code }
{
    match rule {
        TypeRule::Shift => matches!(
            code,
            element_types::UD
                | element_types::D
                | element_types::UW
                | element_types::W
                | element_types::UB
                | element_types::B
        ),
        TypeRule::Offset => code == element_types::UD,
        TypeRule::Dword => matches!(
            code,
            element_types::UD | element_types::D | element_types::F
        ),
        TypeRule::Address => code == element_types::UQ,
        TypeRule::Any => element_types::is_listed(code),
    }
}

// A variable of the table; where another slice than that of the types ends before it, its part is 0.
#[tactic(auto, unfolding(crate::specs::Variables::in_table, crate::specs::Variables::variable_at))]
fn variable_at(variables: Variables<'_>, index: u16) -> Result<Variable, OperandRefusal>
    ensures { result ≡ variable_found (variables_of variables.entry) index }
{
    let i = usize::from(index);
    let code = variables
        .types
        .get(i)
        .copied()
        .ok_or(OperandRefusal::Missing)?;
    let start = variables.starts.get(i).copied().unwrap_or(0);
    let count = variables.counts.get(i).copied().unwrap_or(0);
    Ok(Variable { code, start, count })
}

// 4, 20 to 25, 7 of a General operand, or its elements.
#[tactic(auto, unfolding(crate::specs::Operands::general_of, crate::specs::Elements::register_elements))]
fn locate_general(
    register_size: u8,
    role: Role,
    rule: TypeRule,
    lanes: u8,
    general: General,
    variable: Variable,
) -> Result<Elements, OperandRefusal>
    ensures { located_as result ≡ general_of register_size role rule lanes general variable }
{
    let code = variable.code;
    if !type_allowed(rule, code) {
        return Err(OperandRefusal::Unfit);
    }
    region_rules::region_refusal(role, general.region, lanes)?;
    if !regions::elements_good(register_size, role, general, variable, lanes) {
        return Err(OperandRefusal::Outside);
    }
    Ok(Elements {
        size: element_types::size_of(code),
        signed: element_types::is_signed(code),
        immediate: false,
        value: 0,
        at: regions::element_positions(register_size, role, general, variable),
    })
}

#[tactic(auto, using(crate::proofs::Bounds::shifted_one, crate::proofs::Bounds::whole_value), unfolding(crate::specs::Elements::low_bytes))]
fn low_bytes(value: u64, size: u8) -> u64
    ensures { result ≡ low_bytes value size }
{
    if size < 8 {
        value % (1 << (8 * size))
    } else {
        value
    }
}

// 4 of an Immediate source, or its number.
#[tactic(auto, unfolding(crate::specs::Operands::immediate_of, crate::specs::Elements::immediate_element))]
fn locate_immediate(rule: TypeRule, immediate: Immediate) -> Result<Elements, OperandRefusal>
    ensures { located_as result ≡ immediate_of rule immediate }
{
    let code = immediate.code;
    if !type_allowed(rule, code) {
        return Err(OperandRefusal::Unfit);
    }
    let size = element_types::size_of(code);
    let value = u64::from(immediate.low) + 4294967296 * u64::from(immediate.high);
    Ok(Elements {
        size,
        signed: element_types::is_signed(code),
        immediate: true,
        value: low_bytes(value, size),
        at: [0; 32],
    })
}

// A vector operand or a scalar of an instruction with this exec byte; no destination is immediate.
#[tactic(auto, unfolding(crate::specs::Operands::located_vector, crate::specs::Operands::located_general, crate::specs::Operands::located_immediate))]
pub fn locate_vector(
    register_size: u8,
    variables: Variables<'_>,
    role: Role,
    rule: TypeRule,
    exec: u8,
    operand: Operand,
) -> Result<Elements, OperandRefusal>
    ensures { located_as result ≡ located_vector register_size (variables_of variables.entry) role rule exec operand }
{
    match (operand, role) {
        (Operand::General(general), _) => {
            let variable = variable_at(variables, general.index)?;
            let lanes = exec_byte::split(exec).size;
            locate_general(register_size, role, rule, lanes, general, variable)
        }
        (Operand::Immediate(_), Role::Destination) => Err(OperandRefusal::Unfit),
        (Operand::Immediate(immediate), Role::Source | Role::Scalar) => {
            locate_immediate(rule, immediate)
        }
    }
}

#[tactic(auto, unfolding(crate::specs::Operands::raw_good))]
fn raw_good(variable: Variable, size: u8, offset: u16, bytes: u32) -> bool
    requires { (0 < size) × (size ≡ size_of variable.code) }
    ensures { result ≡ raw_good variable offset bytes }
{
    offset % u16::from(size) == 0
        && u64::from(offset) + u64::from(bytes) <= u64::from(variable.count) * u64::from(size)
}

// 4, 7 of a raw operand, or its elements.
#[tactic(auto, using(crate::proofs::AllowedLaws::allowed_some), unfolding(crate::specs::Operands::raw_of, crate::specs::Elements::register_elements))]
fn raw_of(
    rule: TypeRule,
    bytes: u32,
    offset: u16,
    variable: Variable,
) -> Result<Elements, OperandRefusal>
    ensures { located_as result ≡ raw_of rule bytes offset variable }
{
    let code = variable.code;
    if !type_allowed(rule, code) {
        return Err(OperandRefusal::Unfit);
    }
    let size = element_types::size_of(code);
    if !raw_good(variable, size, offset, bytes) {
        return Err(OperandRefusal::Outside);
    }
    Ok(Elements {
        size,
        signed: element_types::is_signed(code),
        immediate: false,
        value: 0,
        at: regions::raw_positions(variable, offset),
    })
}

// A raw operand of which so many bytes are needed.
#[tactic(auto, unfolding(crate::specs::Operands::located_raw))]
pub fn locate_raw(
    variables: Variables<'_>,
    rule: TypeRule,
    bytes: u32,
    raw: Raw,
) -> Result<Elements, OperandRefusal>
    ensures { located_as result ≡ located_raw (variables_of variables.entry) rule bytes raw }
{
    let variable = variable_at(variables, raw.index)?;
    raw_of(rule, bytes, raw.offset, variable)
}
