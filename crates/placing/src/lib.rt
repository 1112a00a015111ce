// "The order: each time, of the unplaced groups whose arrows in all come from placed ones, take the lowest number", until none can be taken. Each
// group and each arrow is looked at a constant number of times.
#![tactic(auto)]

mod counts;
mod turns;

ghost use Rattle.std.specs.Prelude.{◌≡◌};
ghost use Rattle.model.specs.Choice.{numbers_from};
ghost use Rattle.model.specs.Orders as orders;
ghost use Rattle.graph.specs.Edges.{groups_in, graph_in};
ghost use Rattle.placing.specs.Placed.{placed_as};

use crate::counts::Counts;
use crate::turns::place_ready;
use bitmap::BITMAP;
use graph::{Drawn, Groups, groups_in};
use indexing::Index;

// How many groups are placed, the groups in their order, and for each group how many arrows from unplaced groups lead into it.
#[derive(Clone, Copy)]
pub struct Placed {
    pub count: usize,
    pub order: Groups,
    pub waiting: Groups,
}

// The groups below `groups`, with those of the arrows that are between them.
pub fn place(groups: u16, drawn: &Drawn) -> Placed
    ensures { result ≡ placed_as (orders.place (groups_in groups) (numbers_from 0 (groups_in groups)) (graph_in groups drawn.now.count drawn.now.edges)) }
{
    let all = groups_in(groups);
    let mut index = Index::none();
    index.note_all(all, drawn);
    let mut counts = Counts {
        waiting: index.waiting,
        ready: [0; BITMAP],
    };
    index.find_ready(all, &mut counts.ready);
    place_ready(all, &drawn.edges, &index, &mut counts)
}
