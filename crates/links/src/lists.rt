// Lists that run through the pool: each has a head and a tail among the ends of its rank, and each entry links to the one that follows. An entry
// joins a list at its tail, and leaves it from any place. No operation looks at more than three entries, but for a search by remote rank, which looks
// at no entry outside the list that it searches. Outside the arrays a read answers 0 and a store changes nothing.
ghost use Rattle.std.specs.Prelude.{◌≡◌};
ghost use Rattle.model.specs.Limits.{max_items};
ghost use Rattle.model.specs.Replay.{is_for};
ghost use Rattle.links.specs.Lists.{list_of, head_end, tail_end, next_of, searched, oldest_in, next_set, linked, unlinked};

use crate::{Ends, Part, Position, Queues};
use entries::{LINK, Pool, REMOTE, field_at, set_field};
use memory::{number_at, store};
use model::ITEMS;

// The number of a queue's list of requests, and of its deliveries.
pub fn list_of(queue: u16, part: Part) -> u32
    ensures { result ≡ list_of queue part }
{
    match part {
        Part::Requests => u32::from(queue) * 2,
        Part::Deliveries => u32::from(queue) * 2 + 1,
    }
}

// Where a list has its head and its tail.
fn head_end(list: u32) -> usize
    ensures { result ≡ head_end list }
{
    list as usize * 2
}

fn tail_end(list: u32) -> usize
    ensures { result ≡ tail_end list }
{
    list as usize * 2 + 1
}

// The entry at the head of a queue's list, or 0. It was appended first of all that wait there.
pub fn next_of(ends: &Ends, rank: u16, queue: u16, part: Part) -> u16
    ensures { result ≡ next_of ends.now rank queue part }
{
    number_at(ends, rank, head_end(list_of(queue, part)))
}

// Whether a pop chooses among the entries with this remote rank: those for the rank that it names, or all where it names none, 0.
#[tactic(auto, unfolding(model::specs::Replay::is_for))]
fn is_for(named: u16, remote: u16) -> bool
    ensures { result ≡ is_for named remote }
{
    named == 0 || named == remote
}

// The first entry for the named rank, from the head of a list on: "takes the oldest entry for that rank". Where none is named that is the head. No
// list has more entries than there are items, so a walk that has gone so far finds none.
fn search(pool: &Pool, named: u16, head: u16) -> Option<Position>
    ensures { result ≡ searched pool.now named max_items 0 head }
{
    let mut previous = 0;
    let mut entry = head;
    for _ in 0..ITEMS {
        if entry == 0 {
            return None;
        }
        if is_for(named, field_at(pool, entry, REMOTE)) {
            return Some(Position { previous, entry });
        }
        previous = entry;
        entry = field_at(pool, entry, LINK);
    }
    None
}

impl Queues {
    // The entry that a pop takes, by the remote rank that it names, or 0 for none.
    pub fn oldest(&self, rank: u16, queue: u16, part: Part, named: u16) -> Option<Position>
        ensures { result ≡ oldest_in self.now rank queue part named }
    {
        search(&self.pool, named, next_of(&self.ends, rank, queue, part))
    }

    // From now on `next` follows `previous`, or is the head where that is none.
    #[tactic(auto, unfolding(crate::specs::Lists::next_set))]
    fn set_next(&mut self, rank: u16, list: u32, previous: u16, next: u16)
        ensures { self.new ≡ next_set self.old rank list previous next }
    {
        if previous == 0 {
            store(&mut self.ends, rank, head_end(list), next);
        } else {
            set_field(&mut self.pool, previous, LINK, next);
        }
    }

    // An entry joins a list at its tail.
    #[tactic(auto, unfolding(crate::specs::Lists::linked))]
    pub fn link(&mut self, rank: u16, list: u32, entry: u16)
        ensures { self.new ≡ linked self.old rank list entry }
    {
        let last = number_at(&self.ends, rank, tail_end(list));
        set_field(&mut self.pool, entry, LINK, 0);
        self.set_next(rank, list, last, entry);
        store(&mut self.ends, rank, tail_end(list), entry);
    }

    // The entry at a position leaves its list.
    #[tactic(auto, unfolding(crate::specs::Lists::unlinked))]
    pub fn unlink(&mut self, rank: u16, list: u32, position: Position)
        ensures { self.new ≡ unlinked self.old rank list position.previous position.entry }
    {
        let next = field_at(&self.pool, position.entry, LINK);
        self.set_next(rank, list, position.previous, next);
        if next == 0 {
            store(&mut self.ends, rank, tail_end(list), position.previous);
        }
    }
}
