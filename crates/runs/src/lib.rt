// The items of a record in turn, each read at its place and taken, on the machine's arrays; and what is told of each.
#![tactic(auto)]

ghost use Rattle.runs.specs.Promise.{Runs};

use entries::ENTRY;
use items::rows::Progress;
use links::{ENDS, Queues};
use machine::{Machine, Turn};
use model::{Cells, Header, ITEMS, RANKS, REGISTERS, Refusal, Starts, Trail};
use queues::ending::all_empty;
use record::item::read_item;
use record::reader::FIRST_ITEM;
use step::take_item;
use trails::tell;

// Where items end that were all taken: the place behind the last one, how many groups they form, how many bars stand in a row that is open there (0
// where none is), and whether all queues are empty.
#[derive(Clone, Copy)]
pub struct Reached {
    pub place: usize,
    pub groups: u16,
    pub row: u16,
    pub quiet: bool,
}

// Takes so many items of a record, from its first on and from the cells at the start; the record may go on behind them. `cells` holds the contents
// after the last item taken, and row i of `trail` tells of item i: its rank if it is a command and else 0; its group; and its access, 0 for none and
// else 1 + 2 * (CELLS * (rank - 1) + cell), plus 1 if it writes. The other rows stay as they were.
pub fn replay_so_far(
    program: &[u8],
    starts: &Starts,
    header: Header,
    recorded: &[u8],
    count: usize,
    cells: &mut Cells,
    trail: &mut Trail,
) -> Result<Reached, Refusal>
    ensures { Runs program.now starts.now header recorded.now count cells.old trail.old
        cells.new trail.new result }
{
    let control = [0; RANKS];
    let registers = [[0; REGISTERS]; RANKS];
    let pool = [[0; ENTRY]; ITEMS];
    let ends = [[0; ENDS]; RANKS];
    let queues = Queues { pool, ends };
    let mut machine = Machine {
        control,
        registers,
        queues,
    };
    let mut place = FIRST_ITEM;
    let mut progress = Progress {
        at: 0,
        opened: 0,
        row: 0,
    };
    for _ in 0..count {
        let read = read_item(recorded, place, header)?;
        let turn = Turn {
            progress,
            item: read.value,
            header,
        };
        let taken = take_item(program, starts, turn, &mut machine, cells)?;
        tell(trail, progress.at, read.value, taken.group, taken.access);
        progress = taken.next;
        place = read.next;
    }
    Ok(Reached {
        place,
        groups: progress.opened,
        row: progress.row,
        quiet: all_empty(&machine.queues.ends, header.ranks, header.queues),
    })
}
