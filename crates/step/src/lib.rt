// One item of a record, taken or refused, the replay's step on the machine's arrays: 12 first, then by its part, a command, a fetch or a delivery.
#![tactic(auto)]

ghost use Rattle.machine.specs.Arrays.{memory};
ghost use Rattle.step.specs.Standing.{Steps};

use commands::take_command;
use items::rows::row_allows;
use machine::{Machine, Outcome, Turn};
use model::refusals::{BARRIER_ROW, WRONG_TRANSITION};
use model::{Cells, Kind, Refusal, Starts};
use pops::{take_delivery, take_fetch};

// The next item of a record, which the replay takes or refuses.
pub fn take_item(
    program: &[u8],
    starts: &Starts,
    turn: Turn,
    machine: &mut Machine,
    cells: &mut Cells,
) -> Outcome
    ensures { Steps program.now starts.now turn.header turn.item turn.progress
        (memory machine.old cells.old) (memory machine.new cells.new) result }
{
    let at = turn.progress.at;
    if !row_allows(turn.progress.row, turn.item) {
        return Err(Refusal {
            number: BARRIER_ROW,
            place: at,
        });
    }
    match turn.item.kind {
        Kind::Popa => take_fetch(turn, machine, cells),
        Kind::Popb => take_delivery(turn, machine, cells),
        Kind::Load
        | Kind::Store
        | Kind::Assign
        | Kind::Assume
        | Kind::Read
        | Kind::Write
        | Kind::Bar => match starts.get(usize::from(turn.item.transition)) {
            Some(&start) => take_command(program, usize::from(start), turn, machine, cells),
            None => Err(Refusal {
                number: WRONG_TRANSITION,
                place: at,
            }),
        },
    }
}
