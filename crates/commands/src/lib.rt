// A command item: its transition is read and judged, its action is done, and its rank moves on.
#![tactic(auto)]

mod actions;

ghost use Rattle.machine.specs.Arrays.{memory};
ghost use Rattle.machine.specs.Outcomes.{GoesBy};
ghost use Rattle.commands.specs.Commands.{action_on, transition_on, command_on};

use crate::actions::{access_of, perform};
use expressions::Environment;
use items::access::{access_number, agrees_with};
use items::rows::{command_progress, group_of};
use machine::{Advance, Machine, Outcome, Turn};
use memory::{control_of, registers_of, set_control};
use model::refusals::{ACCESS_DIFFERS, WRONG_TRANSITION};
use model::{Action, Cells, Refusal};
use operands::{action_of, kind_of};
use transitions::transition::{Transition, read_transition};

// "place or given value differs from the replay" comes last: with the action known, an item is taken or refused by its access alone.
#[tactic(auto, unfolding(crate::specs::Commands::action_on, machine::specs::Outcomes::agreed_on))]
fn take_action(
    action: Action,
    turn: Turn,
    target: u16,
    machine: &mut Machine,
    cells: &mut Cells,
) -> Outcome
    ensures { GoesBy (action_on turn.header.ranks turn.item turn.progress target action)
        (memory machine.old cells.old) (memory machine.new cells.new) result }
{
    let rank = turn.item.rank;
    let access = access_of(action, rank, cells);
    if !agrees_with(turn.item, access) {
        return Err(Refusal {
            number: ACCESS_DIFFERS,
            place: turn.progress.at,
        });
    }
    let group = group_of(turn.progress.opened, turn.item);
    perform(action, rank, turn.progress.at, group, machine, cells);
    set_control(&mut machine.control, rank, target);
    Ok(Advance {
        next: command_progress(turn.progress, turn.header.ranks, turn.item),
        group,
        access: access_number(access),
    })
}

// "A command item takes its transition from the rank's state": 7, then 18, then 8 and 9, then 11.
#[tactic(auto, unfolding(crate::specs::Commands::transition_on))]
fn take_transition(
    transition: Transition,
    turn: Turn,
    machine: &mut Machine,
    cells: &mut Cells,
) -> Outcome
    ensures { GoesBy (transition_on turn.header turn.item turn.progress transition)
        (memory machine.old cells.old) (memory machine.new cells.new) result }
{
    let rank = turn.item.rank;
    let at = turn.progress.at;
    let source = transition.source;
    let state = control_of(&machine.control, rank);
    if source != state || kind_of(transition.command) != turn.item.kind {
        return Err(Refusal {
            number: WRONG_TRANSITION,
            place: at,
        });
    }
    let action = action_of(transition.command, turn.header, rank, at)?;
    take_action(action, turn, transition.target, machine, cells)
}

// A command item whose transition stands at `start`.
pub fn take_command(
    program: &[u8],
    start: usize,
    turn: Turn,
    machine: &mut Machine,
    cells: &mut Cells,
) -> Outcome
    ensures { GoesBy (command_on program.now start turn.header turn.item turn.progress)
        (memory machine.old cells.old) (memory machine.new cells.new) result }
{
    let environment = Environment {
        header: turn.header,
        rank: turn.item.rank,
        registers: registers_of(&machine.registers, turn.item.rank),
    };
    match read_transition(environment, program, start) {
        Ok(read) => take_transition(read.value, turn, machine, cells),
        Err(_) => Err(Refusal {
            number: WRONG_TRANSITION,
            place: turn.progress.at,
        }),
    }
}
