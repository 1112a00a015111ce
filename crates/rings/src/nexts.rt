// The way round: for each group the lowest next one that lies nearer to the root, and the groups met by following these.
ghost use Rattle.std.specs.Prelude.{◌≡◌, ◌≤◌, ◌<◌, min, get_or, set};
ghost use Rattle.model.specs.Limits.{max_items};
ghost use Rattle.graph.specs.Edges.{edges_in};
ghost use Rattle.rings.specs.Found.{counted, found_as};
ghost use Rattle.indexing.specs.Entries.{entry_at};
ghost use Rattle.rings.specs.Nexts.{TellsNearer, Nexts, followed};

use crate::Found;
use crate::arrows::counts;
use graph::{Edges, Groups, edges_in, source, target};
use indexing::entry;
use model::ITEMS;

// Stands for no group: all groups are lower.
const NONE: u16 = ITEMS as u16;

// Whether a group was met, and lies one arrow nearer to the root than another.
fn nearer(distances: &Groups, from: u16, to: u16) -> bool
    ensures { TellsNearer distances.now from to result }
{
    let far = entry(distances, from as usize);
    let near = entry(distances, to as usize);
    0 < near && near < far && far - near == 1
}

// The entry of a group is no higher than a number.
fn lower_entry(next: &mut Groups, group: u16, number: u16)
    requires { group < max_items }
    ensures { next.new ≡ set next.old group (min number (get_or next.old group 0)) }
{
    let at = group as usize;
    next[at] = number.min(next[at]);
}

// For each group the lowest next one that lies nearer.
pub fn lowest_nexts(
    groups: usize,
    edges: &Edges,
    count: usize,
    waiting: &Groups,
    distances: &Groups,
) -> Groups
    requires { groups ≤ max_items }
    ensures { Nexts (counted groups waiting.now (edges_in count edges.now)) (entry_at distances.now) (entry_at result) }
{
    let mut next = [NONE; ITEMS];
    for edge in 0..edges_in(count) {
        let from = source(edges, edge);
        let to = target(edges, edge);
        if counts(groups, waiting, from, to) {
            if nearer(distances, from, to) {
                lower_entry(&mut next, from, to);
            }
        }
    }
    next
}

// So many groups from one on, each the next of the one before.
pub fn follow(start: u16, count: u16, next: &Groups) -> Found
    requires { count ≤ max_items }
    ensures { result ≡ found_as (followed count start (entry_at next.now)) }
{
    let mut ring = [0; ITEMS];
    let mut at = start;
    let count = count as usize;
    for place in 0..count {
        ring[place] = at;
        at = entry(next, at as usize);
    }
    Found { count, ring }
}
