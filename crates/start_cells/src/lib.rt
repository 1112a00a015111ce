// Start bytes read into the machine's cells: for each rank in turn its map, and a value for each of the map's bits (document 02, #103).
#![tactic(auto)]

mod maps;
mod rows;

ghost use Rattle.start_cells.specs.Reading.{cells_read};
ghost use Rattle.start_cells.specs.Answers.{ReadsInto};

use crate::rows::read_rows;
use model::refusals::START_FORM;
use model::{CELLS, Cells, Header, RANKS, Refusal};

// Reads a start into the cells: each rank's readings in its row, and 0 in every other cell. "No bytes at all .. mean that all is 0". On a refusal the
// cells stay as they were. Put into a caller, its table would take stack in all that the caller does.
#[inline(never)]
#[tactic(auto, unfolding(crate::specs::Reading::cells_read, model::specs::Bytes::whole))]
pub fn start_cells(start: &[u8], header: Header, cells: &mut Cells) -> Result<(), Refusal>
    ensures { ReadsInto (cells_read header start.now) cells.old cells.new result }
{
    let mut read = [[0; CELLS]; RANKS];
    if !start.is_empty() {
        let place = read_rows(start, header, &mut read)?;
        if place != start.len() {
            return Err(Refusal {
                number: START_FORM,
                place,
            });
        }
    }
    *cells = read;
    Ok(())
}
