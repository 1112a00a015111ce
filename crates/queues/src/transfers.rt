// What the steps of the replay do to the queues.
ghost use Rattle.std.specs.Prelude.{◌≡◌};
ghost use Rattle.queues.specs.Transfers.{has_room, appended, fetched, delivered};

use entries::{Request, VALUE, set_field, set_request};
use links::lists::list_of;
use links::{Part, Position, Queues};
use memory::row_of;
use model::{ITEMS, QUEUES, RANKS};

// Whether there is such a queue, and an entry for such an item.
#[tactic(auto, unfolding(crate::specs::Transfers::has_room))]
fn has_room(rank: u16, queue: u16, at: usize) -> bool
    ensures { result ≡ has_room rank queue at }
{
    match row_of(rank) {
        Some(row) => row < RANKS && usize::from(queue) < QUEUES && at < ITEMS,
        None => false,
    }
}

// The transfer of item `at` joins the requests of a queue.
#[tactic(auto, unfolding(crate::specs::Transfers::appended))]
pub fn append(queues: &mut Queues, rank: u16, queue: u16, at: usize, request: Request)
    ensures { queues.new ≡ appended queues.old rank queue at request }
{
    if has_room(rank, queue, at) {
        let entry = (at + 1) as u16;
        set_request(&mut queues.pool, entry, request);
        queues.link(rank, list_of(queue, Part::Requests), entry);
    }
}

// The request at this position is fetched: it leaves the requests of its queue, and is the newest of its deliveries then, with the value that was read.
#[tactic(auto, unfolding(crate::specs::Transfers::fetched))]
pub fn fetch(queues: &mut Queues, rank: u16, queue: u16, position: Position, value: u16)
    ensures { queues.new ≡ fetched queues.old rank queue position value }
{
    set_field(&mut queues.pool, position.entry, VALUE, value);
    queues.unlink(rank, list_of(queue, Part::Requests), position);
    queues.link(rank, list_of(queue, Part::Deliveries), position.entry);
}

// The delivery at this position is done, and leaves the deliveries of its queue.
#[tactic(auto, unfolding(crate::specs::Transfers::delivered))]
pub fn deliver(queues: &mut Queues, rank: u16, queue: u16, position: Position)
    ensures { queues.new ≡ delivered queues.old rank queue position }
{
    queues.unlink(rank, list_of(queue, Part::Deliveries), position);
}
