// The replay of a record on a program from a start: the program is read, then the start, then the record, then its items are taken in turn, and at the
// end no row is open and all queues are empty. It is the front of the check, the slip writer and the listing.
#![tactic(auto)]

ghost use Rattle.std.specs.Prelude.{◌≡◌};
ghost use Rattle.replay.specs.Handed.{lent, end_of, TakesRecord, HandsOver};

use model::refusals::{BARRIER_ROW, QUEUES_LEFT};
use model::{Cells, Header, Refusal, Starts, Trail};
use program::reader::read_program;
use record::reader::read_record;
use runs::{Reached, replay_so_far};
use start_cells::start_cells;

// An accepted record of a readable program: the program's numbers, how many items the record has, and how many groups they form.
#[derive(Clone, Copy)]
pub struct Accepted {
    pub header: Header,
    pub items: usize,
    pub groups: u16,
}

// What so many items come to that were all taken: "An open row at the end is 12, placed at the item count, and comes before 13."
fn at_end(header: Header, items: usize, reached: Reached) -> Result<Accepted, Refusal>
    ensures { result ≡ end_of header items reached }
{
    if reached.row != 0 {
        return Err(Refusal {
            number: BARRIER_ROW,
            place: items,
        });
    }
    if !reached.quiet {
        return Err(Refusal {
            number: QUEUES_LEFT,
            place: items,
        });
    }
    Ok(Accepted {
        header,
        items,
        groups: reached.groups,
    })
}

// The record of a program that was read, from the start that the cells hold.
fn replay_record(
    program: &[u8],
    starts: &Starts,
    header: Header,
    recorded: &[u8],
    cells: &mut Cells,
    trail: &mut Trail,
) -> Result<Accepted, Refusal>
    ensures { TakesRecord program.now starts.now header recorded.now
        (lent cells.old trail.old) (lent cells.new trail.new) result }
{
    let items = read_record(recorded, header)?;
    let reached = replay_so_far(program, starts, header, recorded, items, cells, trail)?;
    at_end(header, items, reached)
}

// Replays a record on a program from a start. At acceptance `cells` holds the last contents, and of a trail that held 0 row i tells of item i, as
// `replay_so_far` says. On a refusal both hold what they held where it was found.
pub fn replay(
    program: &[u8],
    start: &[u8],
    recorded: &[u8],
    cells: &mut Cells,
    trail: &mut Trail,
) -> Result<Accepted, Refusal>
    ensures { HandsOver program.now start.now recorded.now
        (lent cells.old trail.old) (lent cells.new trail.new) result }
{
    let read = read_program(program)?;
    start_cells(start, read.header, cells)?;
    replay_record(program, &read.starts, read.header, recorded, cells, trail)
}
