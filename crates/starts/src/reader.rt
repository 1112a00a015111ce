// Reading a start for a program, into a lent list of numbers or of bytes.
ghost use Rattle.model.specs.Starts.{readings_in};
ghost use Rattle.starts.specs.Reading.{Lends};

use lists::{Element, write_cells};
use model::refusals::MEMORY_TOO_SHORT;
use model::{CELLS, Filled, RANKS, Refusal};
use program::reader::read_program;
use start_cells::start_cells;

// The readings of a start, an entry for each cell: the program is refused first, then the start, and then a list that is too short.
pub fn read_list<T: Element>(program: &[u8], start: &[u8], list: &mut [T]) -> Filled
    ensures { Lends T.WIDTH T.shown (readings_in program.now start.now) list.old list.new result }
{
    let header = read_program(program)?.header;
    let mut cells = [[0; CELLS]; RANKS];
    start_cells(start, header, &mut cells)?;
    let count = header.ranks as usize * header.cells as usize;
    if list.len() / T::WIDTH < count {
        return Err(Refusal {
            number: MEMORY_TOO_SHORT,
            place: count,
        });
    }
    write_cells(list, &cells, header.ranks, header.cells);
    Ok(count)
}
