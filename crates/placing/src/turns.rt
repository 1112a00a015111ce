// The turns of the placing.
ghost use Rattle.std.specs.Prelude.{◌≡◌, replicate};
ghost use Rattle.model.specs.Limits.{max_items};
ghost use Rattle.placing.specs.Turns.{noted, place_on};

use crate::Placed;
use crate::counts::Counts;
use bitmap::take_lowest;
use graph::{Edges, Groups};
use indexing::Index;
use model::ITEMS;

// Puts a group behind the first `count` of a list.
#[tactic(auto, unfolding(crate::specs::Turns::noted))]
fn note(order: &mut Groups, count: usize, group: u16)
    ensures { order.new ≡ noted order.old count group }
{
    if count < ITEMS {
        order[count] = group;
    }
}

// Takes the lowest group that is ready and releases what waits for it, until none is ready or all are placed.
pub fn place_ready(groups: usize, edges: &Edges, index: &Index, counts: &mut Counts) -> Placed
    ensures { result ≡
        place_on edges.now index.now.heads index.now.links groups 0 (replicate max_items 0) counts.old }
{
    let mut order = [0; ITEMS];
    for count in 0..groups {
        match take_lowest(&mut counts.ready) {
            None => {
                return Placed {
                    count,
                    order,
                    waiting: counts.waiting,
                };
            }
            Some(group) => {
                note(&mut order, count, group);
                counts.release(edges, index, group);
            }
        }
    }
    Placed {
        count: groups,
        order,
        waiting: counts.waiting,
    }
}
