// The pops: a fetch reads the source cell of the oldest request, a delivery writes the oldest delivery. A pop that names a remote rank chooses among
// the entries for that rank.
#![tactic(auto)]

ghost use Rattle.std.specs.Prelude.{◌≡◌};
ghost use Rattle.model.specs.Refusals.{present, empty_queue};
ghost use Rattle.entries.specs.Entries.{request_at, delivery_at};
ghost use Rattle.links.specs.Lists.{oldest_in};
ghost use Rattle.machine.specs.Arrays.{memory};
ghost use Rattle.machine.specs.Outcomes.{GoesBy};
ghost use Rattle.pops.specs.Pops.{fetched_on, delivered_on, fetch_on, delivery_on};

use entries::{delivery_at, request_at};
use items::access::{access_number, agrees_with};
use items::rows::pop_progress;
use links::{Part, Position};
use machine::{Advance, Machine, Outcome, Turn};
use memory::{cell_at, set_cell};
use model::refusals::{ACCESS_DIFFERS, EMPTY_QUEUE};
use model::{Access, Cells, Refusal};
use queues::transfers::{deliver, fetch};

// With the request at this position, popa "reads the source cell now, and appends destination and value to that queue's deliveries."
#[tactic(auto, unfolding(crate::specs::Pops::fetched_on, machine::specs::Outcomes::agreed_on))]
fn fetch_entry(position: Position, turn: Turn, machine: &mut Machine, cells: &Cells) -> Outcome
    ensures { GoesBy (fetched_on turn.item turn.progress position (request_at machine.old.queues.pool position.entry))
        (memory machine.old cells.now) (memory machine.new cells.now) result }
{
    let request = request_at(&machine.queues.pool, position.entry);
    let value = cell_at(cells, request.source);
    let access = Some(Access {
        writes: false,
        address: request.source,
        value,
    });
    if !agrees_with(turn.item, access) {
        return Err(Refusal {
            number: ACCESS_DIFFERS,
            place: turn.progress.at,
        });
    }
    fetch(
        &mut machine.queues,
        turn.item.rank,
        turn.item.queue,
        position,
        value,
    );
    Ok(Advance {
        next: pop_progress(turn.progress),
        group: request.group,
        access: access_number(access),
    })
}

// With the delivery at this position, popb "writes it."
#[tactic(auto, unfolding(crate::specs::Pops::delivered_on, machine::specs::Outcomes::agreed_on))]
fn deliver_entry(
    position: Position,
    turn: Turn,
    machine: &mut Machine,
    cells: &mut Cells,
) -> Outcome
    ensures { GoesBy (delivered_on turn.item turn.progress position (delivery_at machine.old.queues.pool position.entry))
        (memory machine.old cells.old) (memory machine.new cells.new) result }
{
    let delivery = delivery_at(&machine.queues.pool, position.entry);
    let access = Some(Access {
        writes: true,
        address: delivery.destination,
        value: delivery.value,
    });
    if !agrees_with(turn.item, access) {
        return Err(Refusal {
            number: ACCESS_DIFFERS,
            place: turn.progress.at,
        });
    }
    deliver(
        &mut machine.queues,
        turn.item.rank,
        turn.item.queue,
        position,
    );
    set_cell(cells, delivery.destination, delivery.value);
    Ok(Advance {
        next: pop_progress(turn.progress),
        group: delivery.group,
        access: access_number(access),
    })
}

// Where the oldest entry stands of those that a pop chooses among: the named queue's, or those for the rank that it names.
fn oldest_for(turn: Turn, part: Part, machine: &Machine) -> Result<Position, Refusal>
    ensures { result ≡ present (oldest_in machine.now.queues turn.item.rank turn.item.queue part turn.item.remote) empty_queue turn.progress.at }
{
    machine
        .queues
        .oldest(turn.item.rank, turn.item.queue, part, turn.item.remote)
        .ok_or(Refusal {
            number: EMPTY_QUEUE,
            place: turn.progress.at,
        })
}

// "popa takes the head request of the named queue", or the oldest for the rank that it names.
pub fn take_fetch(turn: Turn, machine: &mut Machine, cells: &Cells) -> Outcome
    ensures { GoesBy (fetch_on turn.item turn.progress)
        (memory machine.old cells.now) (memory machine.new cells.now) result }
{
    let position = oldest_for(turn, Part::Requests, machine)?;
    fetch_entry(position, turn, machine, cells)
}

// "popb takes the head delivery", or the oldest for the rank that it names.
pub fn take_delivery(turn: Turn, machine: &mut Machine, cells: &mut Cells) -> Outcome
    ensures { GoesBy (delivery_on turn.item turn.progress)
        (memory machine.old cells.old) (memory machine.new cells.new) result }
{
    let position = oldest_for(turn, Part::Deliveries, machine)?;
    deliver_entry(position, turn, machine, cells)
}
