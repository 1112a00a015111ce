// "At the end all queues are empty."
ghost use Rattle.std.specs.Prelude.{◌≡◌};
ghost use Rattle.queues.specs.Endings.{queue_empty, rank_empty, all_empty};

use links::lists::next_of;
use links::{Ends, Part};

// One queue: neither a request nor a delivery waits.
fn queue_empty(ends: &Ends, rank: u16, queue: u16) -> bool
    ensures { result ≡ queue_empty ends.now rank queue }
{
    next_of(ends, rank, queue, Part::Requests) == 0
        && next_of(ends, rank, queue, Part::Deliveries) == 0
}

// The queues of one rank.
fn rank_empty(ends: &Ends, rank: u16, queues: u16) -> bool
    ensures { result ≡ rank_empty ends.now queues rank }
{
    (0..queues).all(|queue| queue_empty(ends, rank, queue))
}

// The queues of ranks 1 to `ranks`.
pub fn all_empty(ends: &Ends, ranks: u16, queues: u16) -> bool
    ensures { result ≡ all_empty ends.now ranks queues }
{
    (0..ranks).all(|before| rank_empty(ends, before + 1, queues))
}
