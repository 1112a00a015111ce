// What an action accesses, and what it does to the arrays.
ghost use Rattle.std.specs.Prelude.{◌≡◌};
ghost use Rattle.model.specs.Replay.{access_of};
ghost use Rattle.memory.specs.Tables.{cells_size, number_at};
ghost use Rattle.machine.specs.Arrays.{memory};
ghost use Rattle.commands.specs.Commands.{perform_on};

use entries::Request;
use machine::Machine;
use memory::{cell_at, set_cell, set_register};
use model::{Access, Action, Address, Cells};
use queues::transfers::append;

// "Loads .. read their cell; stores .. write theirs."
#[tactic(auto, unfolding(model::specs::Replay::access_of))]
pub fn access_of(action: Action, rank: u16, cells: &Cells) -> Option<Access>
    ensures { result ≡ access_of rank action (number_at cells_size cells.now) }
{
    match action {
        Action::Loads { cell, .. } => {
            let address = Address { rank, cell };
            Some(Access {
                writes: false,
                address,
                value: cell_at(cells, address),
            })
        }
        Action::Stores { cell, value } => Some(Access {
            writes: true,
            address: Address { rank, cell },
            value,
        }),
        _ => None,
    }
}

// The action of the command item `at`, whose group is `group`.
#[tactic(auto, unfolding(crate::specs::Commands::perform_on))]
pub fn perform(
    action: Action,
    rank: u16,
    at: usize,
    group: u16,
    machine: &mut Machine,
    cells: &mut Cells,
)
    ensures { memory machine.new cells.new ≡ perform_on rank at group action (memory machine.old cells.old) }
{
    match action {
        Action::Loads { register, cell } => {
            let value = cell_at(cells, Address { rank, cell });
            set_register(&mut machine.registers, rank, register, value);
        }
        Action::Stores { cell, value } => set_cell(cells, Address { rank, cell }, value),
        Action::Assigns { register, value } => {
            set_register(&mut machine.registers, rank, register, value);
        }
        Action::Issues {
            queue,
            remote,
            source,
            destination,
        } => {
            let request = Request {
                remote,
                source,
                destination,
                group,
            };
            append(&mut machine.queues, rank, queue, at, request);
        }
        Action::Passes | Action::Meets => {}
    }
}
