// The whole check: program, start and record are read, the record is replayed, and its arrows come to an order or a ring.
#![tactic(auto)]

mod conclusion;

ghost use Rattle.std.specs.Prelude.{◌≡◌};
ghost use Rattle.demands.specs.Entries.{numbers, bytes};
ghost use Rattle.lists.specs.Written.{entries_written, cell_entries_written};
ghost use Rattle.checker.specs.Checked.{Checked, answering};

use crate::conclusion::{Concluded, Room, conclude};
use lists::{Element, write, write_cells};
use model::{Answer, CELLS, Cells, RANKS};

// Writes the groups and the cells that are listed, in either form of lists.
fn write_lists<T: Element>(concluded: &Concluded, last: &Cells, order: &mut [T], cells: &mut [T])
    ensures groups { order.new ≡ entries_written T.WIDTH T.shown order.old 0 concluded.now.groups concluded.now.count }
    ensures cells { cells.new ≡ cell_entries_written T.WIDTH T.shown cells.old last.now concluded.now.ranks concluded.now.width }
{
    write(order, 0, &concluded.groups, concluded.count);
    write_cells(cells, last, concluded.ranks, concluded.width);
}

// Checks a record of a program from a start. An order or a ring fills the first entries of `order`, and the last cell values, rank 1 first, those of
// `cells`; the other entries are untouched. On a refusal nothing lent changes.
pub fn check(
    program: &[u8],
    start: &[u8],
    recorded: &[u8],
    order: &mut [u16],
    cells: &mut [u16],
) -> Answer
    ensures { Checked numbers program.now start.now recorded.now order.old cells.old
        (answering result order.new cells.new) }
{
    let mut last = [[0; CELLS]; RANKS];
    let room = Room {
        groups: order.len(),
        cells: cells.len(),
    };
    let concluded = conclude(program, start, recorded, room, &mut last);
    write_lists(&concluded, &last, order, cells);
    concluded.answer
}

// The same with both lists in bytes, two an entry, big-endian. An odd last byte is never used.
pub fn check_bytes(
    program: &[u8],
    start: &[u8],
    recorded: &[u8],
    order: &mut [u8],
    cells: &mut [u8],
) -> Answer
    ensures { Checked bytes program.now start.now recorded.now order.old cells.old
        (answering result order.new cells.new) }
{
    let mut last = [[0; CELLS]; RANKS];
    let room = Room {
        groups: order.len() / 2,
        cells: cells.len() / 2,
    };
    let concluded = conclude(program, start, recorded, room, &mut last);
    write_lists(&concluded, &last, order, cells);
    concluded.answer
}
