// The ring (document 02, #111): "Return one with as few groups as any closed walk along arrows has. Of several, take the one whose numbers, listed
// from its lowest group, come first when compared place by place."
#![tactic(auto)]

mod arrows;
mod closings;
mod nexts;
mod queues;
mod removing;
mod roots;
mod searches;

ghost use Rattle.std.specs.Prelude.{◌≡◌};
ghost use Rattle.graph.specs.Edges.{groups_in, graph_in};
ghost use Rattle.rings.specs.Found.{ring_among, found_as};

use crate::arrows::Arrows;
use crate::nexts::{follow, lowest_nexts};
use crate::queues::Queue;
use crate::roots::closest;
use crate::searches::Search;
use graph::{EDGES, Edges, Groups, groups_in};
use model::ITEMS;

// How many groups form the ring, and the groups along the arrows.
#[derive(Clone, Copy)]
pub struct Found {
    pub count: usize,
    pub ring: Groups,
}

// The ring of the groups that wait: those with a count of arrows that is not 0. Where there is none, it has no groups. The group that it is found
// from is looked from once more, for the distances of those before it.
pub fn ring(groups: u16, edges: &Edges, count: usize, waiting: &Groups) -> Found
    ensures { result ≡ found_as (ring_among (groups_in groups) waiting.now (graph_in groups count edges.now)) }
{
    let limit = groups_in(groups);
    let mut arrows = Arrows {
        edges,
        heads: [0; ITEMS],
        links: [0; EDGES],
        tails: [0; ITEMS],
        onward: [0; EDGES],
    };
    arrows.list(limit, count, waiting);
    let mut search = Search {
        distances: [0; ITEMS],
        lows: [0; ITEMS],
        queue: Queue {
            groups: [0; ITEMS],
            end: 0,
        },
    };
    match closest(limit, &arrows, &mut search) {
        Some(best) => {
            search.measure(best.group, best.arrows, &arrows, &arrows.tails);
            search.distances[best.group as usize] = best.arrows + 1;
            let next = lowest_nexts(limit, edges, count, waiting, &search.distances);
            follow(best.group, best.arrows, &next)
        }
        None => Found {
            count: 0,
            ring: [0; ITEMS],
        },
    }
}
