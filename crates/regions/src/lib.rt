// Regions: which element of its variable each lane takes, and where that is.

#![tactic(auto)]

ghost use Rattle.std.specs.Prelude.{◌≡◌, ◌+◌, ◌-◌, ◌≤◌, ◌<◌};
ghost use Rattle.element_types.specs.Types.{size_of};
ghost use Rattle.regions.specs.Regions.{row_elements, first_element, element_of};
ghost use Rattle.regions.specs.Reach.{lowest, highest, two_registers, elements_good};
ghost use Rattle.regions.specs.Mirror.Grid.{grid_element, grid_of};
ghost use Rattle.regions.specs.Positions.{lane_positions, element_byte};

use operand_fields::General;
use region_rules::Role;

// A variable of the table: its type's code, start byte and element count.
#[derive(Clone, Copy)]
pub struct Variable {
    pub code: u8,
    pub start: u16,
    pub count: u16,
}

// The first element, the strides and the width of a region, in elements.
#[derive(Clone, Copy)]
struct Grid {
    first: u16,
    vertical: u8,
    width: u8,
    horizontal: u8,
}

// The lowest and the highest element of all lanes.
#[derive(Clone, Copy)]
struct Reach {
    low: u32,
    high: u32,
}

// The elements of a row, which is a register; 0 where they have no size.
#[tactic(auto, unfolding(crate::specs::Regions::row_elements))]
fn row_elements(register_size: u8, size: u8) -> u8
    ensures { result ≡ row_elements register_size size }
{
    register_size.checked_div(size).unwrap_or(0)
}

#[tactic(auto, unfolding(crate::specs::Regions::first_element))]
fn first_element(register_size: u8, general: General, size: u8) -> u16
    ensures { result ≡ first_element register_size general size }
{
    let in_row = u16::from(row_elements(register_size, size));
    u16::from(general.row) * in_row + u16::from(general.column)
}

#[tactic(auto, unfolding(crate::specs::Mirror::Grid::grid_of, region_rules::specs::RegionWord::vertical_code, region_rules::specs::RegionWord::width_code, region_rules::specs::RegionWord::horizontal_code))]
fn grid_of(register_size: u8, role: Role, general: General, size: u8) -> Grid
    ensures { result ≡ grid_of register_size role general size }
{
    let first = first_element(register_size, general, size);
    let horizontal = region_rules::stride_of(general.region / 256 % 16);
    match role {
        Role::Source => Grid {
            first,
            vertical: region_rules::stride_of(general.region % 16),
            width: region_rules::stride_of(general.region / 16 % 16),
            horizontal,
        },
        Role::Scalar => Grid {
            first,
            vertical: 0,
            width: 1,
            horizontal: 0,
        },
        Role::Destination => Grid {
            first,
            vertical: horizontal,
            width: 1,
            horizontal: 0,
        },
    }
}

// A region that has no width is one row.
#[tactic(auto, using(crate::proofs::Bounds::row_part, crate::proofs::Bounds::place_part), unfolding(crate::specs::Mirror::Grid::grid_element))]
fn element_of(grid: Grid, lane: u8) -> u32
    ensures { result ≡ grid_element grid lane }
{
    let row = u32::from(lane.checked_div(grid.width).unwrap_or(0));
    let place = u32::from(lane.checked_rem(grid.width).unwrap_or(lane));
    u32::from(grid.first) + row * u32::from(grid.vertical) + place * u32::from(grid.horizontal)
}

#[tactic(auto, unfolding(crate::specs::Reach::lowest, crate::specs::Reach::highest))]
fn reach_of(grid: Grid, lanes: u8) -> Reach
    ensures { result ≡ record { low = lowest (grid_element grid) lanes; high = highest (grid_element grid) lanes } }
{
    let mut low = element_of(grid, 0);
    let mut high = low;
    for lane in 0..lanes {
        let element = element_of(grid, lane);
        low = low.min(element);
        high = high.max(element);
    }
    Reach { low, high }
}

// Whether the bytes from the first to the one before the end are in two adjacent registers.
#[tactic(auto, unfolding(crate::specs::Reach::two_registers))]
fn two_registers(register_size: u8, first: u64, end: u64) -> bool
    requires { first ≤ 1099511627776 }
    ensures { result ≡ two_registers register_size first (end - 1) }
{
    if end == 0 {
        return true;
    }
    // total; a run has 32 or 64
    if register_size == 0 {
        return true;
    }
    let bytes = u64::from(register_size);
    (end - 1) / bytes <= first / bytes + 1
}

// Whether the elements of all lanes lie in their variable and in two adjacent registers.
// Size of a register, role, operand and variable one by one, as the definitions `elements_good` and `element_of` take them.
pub fn elements_good(
    register_size: u8,
    role: Role,
    general: General,
    variable: Variable,
    lanes: u8,
) -> bool
    ensures { result ≡ elements_good register_size variable (element_of register_size role general (size_of variable.code)) lanes }
{
    let size = element_types::size_of(variable.code);
    let grid = grid_of(register_size, role, general, size);
    let reach = reach_of(grid, lanes);
    let start = u64::from(variable.start);
    let low = u64::from(reach.low);
    let high = u64::from(reach.high);
    let bytes = u64::from(size);
    // with `||` and `&&` its goals stayed open
    ((lanes == 0) | (high < u64::from(variable.count)))
        & two_registers(
            register_size,
            start + low * bytes,
            start + high * bytes + bytes,
        )
}

// The position of each lane's element, counted from a base.
#[tactic(auto, using(crate::proofs::Bounds::position_small), unfolding(crate::specs::Positions::filled, crate::specs::Positions::lane_positions, crate::specs::Positions::element_byte))]
fn lane_positions(base: u32, grid: Grid, size: u8) -> [u32; 32]
    requires { base < 131072 }
    ensures { result ≡ lane_positions (element_byte base size (grid_element grid)) }
{
    let mut at = [0; 32];
    for lane in 0..32 {
        at[usize::from(lane)] = base + element_of(grid, lane) * u32::from(size);
    }
    at
}

// The byte of each lane's element.
#[tactic(auto, using(crate::proofs::GridLaws::grid_elements))]
pub fn element_positions(
    register_size: u8,
    role: Role,
    general: General,
    variable: Variable,
) -> [u32; 32]
    ensures { result ≡ lane_positions (element_byte variable.start (size_of variable.code) (element_of register_size role general (size_of variable.code))) }
{
    let size = element_types::size_of(variable.code);
    let grid = grid_of(register_size, role, general, size);
    lane_positions(u32::from(variable.start), grid, size)
}

// The byte of each lane's element, where they follow one another from an offset on.
#[tactic(auto, using(crate::proofs::GridLaws::consecutive_elements))]
pub fn raw_positions(variable: Variable, offset: u16) -> [u32; 32]
    ensures { result ≡ lane_positions (element_byte (variable.start + offset) (size_of variable.code) (λ k. k)) }
{
    let size = element_types::size_of(variable.code);
    let consecutive = Grid {
        first: 0,
        vertical: 1,
        width: 1,
        horizontal: 0,
    };
    lane_positions(
        u32::from(variable.start) + u32::from(offset),
        consecutive,
        size,
    )
}
