// What the arrows come to: an order of all groups, or a ring of some.
#![tactic(auto)]

ghost use Rattle.std.specs.Prelude.{◌≡◌, Ok};
ghost use Rattle.model.specs.Orders as orders;
ghost use Rattle.graph.specs.Edges.{groups_in, graph_in};
ghost use Rattle.verdicts.specs.Judged.{count_of, judged_as};

use graph::{Drawn, Groups, groups_in};
use model::{Answer, Verdict};
use placing::place;
use rings::ring;

// An order or a ring, by how many groups it has, and these groups.
#[derive(Clone, Copy)]
pub struct Judged {
    pub verdict: Verdict,
    pub groups: Groups,
}

impl Judged {
    // A verdict is an answer, and no refusal.
    pub fn answer(&self) -> Answer
        ensures { result ≡ Ok self.now.verdict }
    {
        Ok(self.verdict)
    }

    // How many groups are listed.
    pub fn count(&self) -> usize
        ensures { result ≡ count_of self.now.verdict }
    {
        match self.verdict {
            Verdict::Order(count) | Verdict::Ring(count) => count,
        }
    }
}

// The verdict on the groups below `groups`, with those of the arrows that are between them.
pub fn verdict(groups: u16, drawn: &Drawn) -> Judged
    ensures { result ≡ judged_as (orders.verdict (groups_in groups) (graph_in groups drawn.now.count drawn.now.edges)) }
{
    let placed = place(groups, drawn);
    if placed.count < groups_in(groups) {
        let found = ring(groups, &drawn.edges, drawn.count, &placed.waiting);
        let members = found.ring;
        Judged {
            verdict: Verdict::Ring(found.count),
            groups: members,
        }
    } else {
        let order = placed.order;
        Judged {
            verdict: Verdict::Order(placed.count),
            groups: order,
        }
    }
}
