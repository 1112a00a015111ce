// Starts of a run: the readings that the cells hold before it, written as bytes and read back.
#![tactic(auto)]

mod entries;
mod reader;
mod writer;

ghost use Rattle.std.specs.Prelude.{◌≡◌};
ghost use Rattle.model.specs.Lending.{answering};
ghost use Rattle.model.specs.Starts.{write_start, write_start_bytes, read_start_into, read_start_into_bytes};

use crate::entries::entries_of;
use crate::reader::read_list;
use crate::writer::write_list;
use model::Filled;
use program::reader::read_program;

// Writes the start that a cell list says, "as the check fills it", for a program: "list, then memory, too short gives 15". Nothing is written on a
// refusal.
pub fn write_start(program: &[u8], cells: &[u16], start: &mut [u8]) -> Filled
    ensures { answering result start.new ≡ write_start program.now cells.now start.old }
{
    let read = read_program(program)?;
    write_list(read.header, cells.len(), cells, start)
}

// The same with the list in bytes, two an entry, big-endian. An odd last byte is never used.
pub fn write_start_bytes(program: &[u8], cells: &[u8], start: &mut [u8]) -> Filled
    ensures { answering result start.new ≡ write_start_bytes program.now cells.now start.old }
{
    let read = read_program(program)?;
    let list = entries_of(cells);
    write_list(read.header, cells.len() / 2, &list, start)
}

// Reads a start for a program: each cell's reading fills its entry, rank 1's first. A start that is not right is refused before a list that is too
// short, and nothing is written then.
pub fn read_start(program: &[u8], start: &[u8], cells: &mut [u16]) -> Filled
    ensures { answering result cells.new ≡ read_start_into program.now start.now cells.old }
{
    read_list(program, start, cells)
}

// The same with the list in bytes.
pub fn read_start_bytes(program: &[u8], start: &[u8], cells: &mut [u8]) -> Filled
    ensures { answering result cells.new ≡ read_start_into_bytes program.now start.now cells.old }
{
    read_list(program, start, cells)
}
