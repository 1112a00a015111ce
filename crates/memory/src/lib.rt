// The machine's cells, registers and control states in arrays, "held per rank". Ranks count from 1 and rows from 0. A read outside the arrays answers
// 0, and a store there changes nothing, so that no function asks anything of its caller.
#![tactic(auto)]

ghost use Rattle.std.specs.Prelude.{◌≡◌};
ghost use Rattle.memory.specs.Tables.{row_named, control_at, control_stored, sized, cells_size, registers_size, row_at, number_at, stored};

use model::{Address, Cells, Control, REGISTERS, RankRegisters, Registers};

// The row of a table that a number from 1 names; 0 names none.
pub fn row_of(number: u16) -> Option<usize>
    ensures { result ≡ row_named number }
{
    usize::from(number).checked_sub(1)
}

// A number of a table, by the number of its row.
#[tactic(auto, unfolding(crate::specs::Tables::number_at))]
pub fn number_at<const WIDTH: usize, const ROWS: usize>(
    table: &[[u16; WIDTH]; ROWS],
    number: u16,
    index: usize,
) -> u16
    ensures { result ≡ number_at (sized ROWS WIDTH) table.now number index }
{
    match row_of(number) {
        Some(row) if row < ROWS && index < WIDTH => table[row][index],
        _ => 0,
    }
}

#[tactic(auto, unfolding(crate::specs::Tables::stored))]
pub fn store<const WIDTH: usize, const ROWS: usize>(
    table: &mut [[u16; WIDTH]; ROWS],
    number: u16,
    index: usize,
    value: u16,
)
    ensures { table.new ≡ stored (sized ROWS WIDTH) table.old number index value }
{
    match row_of(number) {
        Some(row) if row < ROWS && index < WIDTH => table[row][index] = value,
        _ => {}
    }
}

// What a cell holds.
pub fn cell_at(cells: &Cells, place: Address) -> u16
    ensures { result ≡ number_at cells_size cells.now place.rank place.cell }
{
    number_at(cells, place.rank, usize::from(place.cell))
}

pub fn set_cell(cells: &mut Cells, place: Address, value: u16)
    ensures { cells.new ≡ stored cells_size cells.old place.rank place.cell value }
{
    store(cells, place.rank, usize::from(place.cell), value);
}

// A rank's registers, copied.
#[tactic(auto, unfolding(crate::specs::Tables::row_at))]
pub fn registers_of(registers: &Registers, rank: u16) -> RankRegisters
    ensures { result ≡ row_at registers_size registers.now rank }
{
    match row_of(rank) {
        Some(row) if row < registers.len() => registers[row],
        _ => [0; REGISTERS],
    }
}

pub fn set_register(registers: &mut Registers, rank: u16, index: u16, value: u16)
    ensures { registers.new ≡ stored registers_size registers.old rank index value }
{
    store(registers, rank, usize::from(index), value);
}

// A rank's control state.
#[tactic(auto, unfolding(crate::specs::Tables::control_at))]
pub fn control_of(control: &Control, rank: u16) -> u16
    ensures { result ≡ control_at control.now rank }
{
    match row_of(rank) {
        Some(row) if row < control.len() => control[row],
        _ => 0,
    }
}

#[tactic(auto, unfolding(crate::specs::Tables::control_stored))]
pub fn set_control(control: &mut Control, rank: u16, state: u16)
    ensures { control.new ≡ control_stored control.old rank state }
{
    match row_of(rank) {
        Some(row) if row < control.len() => control[row] = state,
        _ => {}
    }
}
