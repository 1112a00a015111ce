// The readings of the ranks in turn, each in its row of the cells.
ghost use Rattle.std.specs.Prelude.{◌≡◌};
ghost use Rattle.start_cells.specs.Reading.{row_reader, rows_from};
ghost use Rattle.start_cells.specs.Answers.{RowsRead};

use crate::maps::read_map;
use marked::Values;
use marked::reader::read_values;
use model::refusals::START_FORM;
use model::{Cells, Found, Header, RANKS, Read, Refusal};

// A rank's readings: its map, then the values of the map's bits. "a listed 0" is a fault.
#[tactic(auto, unfolding(crate::specs::Reading::row_reader))]
fn read_row(start: &[u8], at: usize, cells: u16) -> Read<Values>
    ensures { result ≡ row_reader cells start.now at }
{
    let map = read_map(start, at, cells)?;
    read_values(start, map.next, map.value, u16::MAX, START_FORM)
}

// The readings of all ranks of a program, put into the rows of a table, and where they end. A row beyond the table is read and not kept.
pub fn read_rows(start: &[u8], header: Header, table: &mut Cells) -> Result<usize, Refusal>
    ensures { RowsRead (rows_from header.cells header.ranks 0 table.old start.now 0) table.new result }
{
    let mut at = 0;
    for row in 0..usize::from(header.ranks) {
        let Found { value, next } = read_row(start, at, header.cells)?;
        if row < RANKS {
            table[row] = value;
        }
        at = next;
    }
    Ok(at)
}
