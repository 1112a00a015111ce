// Lists of entries that run through the pool, two for each queue of each rank, and where an entry stands in one.
#![tactic(auto)]

pub mod lists;

use entries::Pool;
use model::{QUEUES, RANKS};

// Each queue has two lists, and each list a head and a tail.
pub const ENDS: usize = QUEUES * 4;

// "held per rank": the ends of each rank's lists.
pub type Ends = [[u16; ENDS]; RANKS];

// The queues of all ranks: the entries that wait, and where the lists of them begin and end.
#[derive(Drop)]
pub struct Queues {
    pub pool: Pool,
    pub ends: Ends,
}

// The two lists of a queue.
#[derive(Clone, Copy)]
pub enum Part {
    Requests,
    Deliveries,
}

// Where an entry stands in its list: `previous` is the one before it, or 0 if it is the head, as the tables have it.
#[derive(Clone, Copy)]
pub struct Position {
    pub previous: u16,
    pub entry: u16,
}
