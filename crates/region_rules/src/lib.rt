// The region word: the stride of a code, and which rule a region word breaks.

#![tactic(auto)]

ghost use Rattle.std.specs.Prelude.{◌≡◌};
ghost use Rattle.refusal.specs.Numbers.{rule_given};
ghost use Rattle.region_rules.specs.declared.Role.TheVariants as role;
ghost use Rattle.region_rules.specs.RegionWord.{stride_of};
ghost use Rattle.region_rules.specs.RegionRules.{is_number, stands_for, region_refusal};

use refusal::RegionRule;

// <0;1,0>: vertical code 1, width code 2, horizontal code 1.
const SCALAR_REGION: u16 = 0x0121;

// What a vector operand or a scalar is for.
#[derive(Clone, Copy)]
pub enum Role {
    Source,
    Scalar,
    Destination,
}

// The stride of a code; Null is 0 too.
// 0 for Null and for a code that is none, as `stride_of` of specs/ has it: a row or a lane then takes no step.
#[tactic(auto, unfolding(crate::specs::RegionWord::stride_of))]
pub fn stride_of(code: u16) -> u8
    ensures { result ≡ stride_of code }
{
    match code {
        2 => 1,
        3 => 2,
        4 => 4,
        5 => 8,
        6 => 16,
        7 => 32,
        _ => 0,
    }
}

#[tactic(auto, unfolding(crate::specs::RegionWord::between, crate::specs::RegionRules::is_number))]
fn is_number(code: u16) -> bool
    ensures { result ≡ is_number code }
{
    1 <= code && code <= 7
}

#[tactic(auto, unfolding(crate::specs::RegionRules::stands_for))]
fn stands_for(number: u8, code: u16) -> bool
    ensures { result ≡ stands_for number code }
{
    is_number(code) && stride_of(code) == number
}

// 20, 21, 22, 24.
#[tactic(auto, unfolding(crate::specs::RegionRules::region_refusal, crate::specs::RegionRules::first_broken, crate::specs::RegionRules::width_zero_or_32, crate::specs::RegionRules::stride_over_four, crate::specs::RegionRules::width_over_exec_size, crate::specs::RegionRules::destination_stride_zero, crate::specs::RegionRules::null_out_of_place, crate::specs::RegionRules::scalar_region_wrong, crate::specs::RegionWord::vertical_code, crate::specs::RegionWord::width_code, crate::specs::RegionWord::horizontal_code))]
fn source_refusal(region: u16, lanes: u8) -> Result<(), RegionRule>
    ensures { rule_given result ≡ region_refusal role.Source region lanes }
{
    let vertical = region % 16;
    let width = region / 16 % 16;
    let horizontal = region / 256 % 16;
    if stands_for(0, width) || stands_for(32, width) {
        return Err(RegionRule::Width);
    }
    if 4 < stride_of(horizontal) {
        return Err(RegionRule::Stride);
    }
    if lanes < stride_of(width) {
        return Err(RegionRule::WidthOverSize);
    }
    if !is_number(vertical) || !is_number(width) || !is_number(horizontal) {
        return Err(RegionRule::Null);
    }
    Ok(())
}

// 21, 23, 24; the lanes do not matter.
#[tactic(auto, unfolding(crate::specs::RegionRules::region_refusal, crate::specs::RegionRules::first_broken, crate::specs::RegionRules::width_zero_or_32, crate::specs::RegionRules::stride_over_four, crate::specs::RegionRules::width_over_exec_size, crate::specs::RegionRules::destination_stride_zero, crate::specs::RegionRules::null_out_of_place, crate::specs::RegionRules::scalar_region_wrong, crate::specs::RegionWord::vertical_code, crate::specs::RegionWord::width_code, crate::specs::RegionWord::horizontal_code))]
fn destination_refusal(region: u16) -> Result<(), RegionRule>
    ensures { rule_given result ≡ region_refusal role.Destination region 0 }
{
    let vertical = region % 16;
    let width = region / 16 % 16;
    let horizontal = region / 256 % 16;
    if 4 < stride_of(horizontal) {
        return Err(RegionRule::Stride);
    }
    if stands_for(0, horizontal) {
        return Err(RegionRule::ZeroStride);
    }
    if vertical != 0 || width != 0 || !is_number(horizontal) {
        return Err(RegionRule::Null);
    }
    Ok(())
}

// The first rule that a region word breaks, for an operand of this role and so many lanes.
#[tactic(auto, unfolding(crate::specs::RegionRules::region_refusal, crate::specs::RegionRules::first_broken, crate::specs::RegionRules::width_zero_or_32, crate::specs::RegionRules::stride_over_four, crate::specs::RegionRules::width_over_exec_size, crate::specs::RegionRules::destination_stride_zero, crate::specs::RegionRules::null_out_of_place, crate::specs::RegionRules::scalar_region_wrong, crate::specs::RegionWord::scalar_region_good))]
pub fn region_refusal(role: Role, region: u16, lanes: u8) -> Result<(), RegionRule>
    ensures { rule_given result ≡ region_refusal role region lanes }
{
    match role {
        Role::Source => source_refusal(region, lanes),
        Role::Scalar if region == SCALAR_REGION => Ok(()),
        Role::Scalar => Err(RegionRule::Scalar),
        Role::Destination => destination_refusal(region),
    }
}
