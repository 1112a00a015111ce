// How many arrows each group waits for. A placed group releases the groups that its arrows lead to.
ghost use Rattle.std.specs.Prelude.{◌≡◌};
ghost use Rattle.placing.specs.Releases.{released, released_edges, edges_from_group};

use bitmap::{Bitmap, insert};
use chains::older;
use graph::{Edges, Groups, target};
use indexing::{Index, entry};
use model::ITEMS;

// How many arrows each group waits for, and the groups that can be placed.
#[derive(Drop)]
pub struct Counts {
    pub waiting: Groups,
    pub ready: Bitmap,
}

impl Counts {
    // One arrow fewer leads into a group, and if that was the last one the group can be placed.
    #[tactic(auto, unfolding(crate::specs::Releases::released))]
    fn release_group(&mut self, group: u16)
        ensures { self.new ≡ released group self.old }
    {
        let at = usize::from(group);
        if at < ITEMS && self.waiting[at] > 0 {
            self.waiting[at] -= 1;
            if self.waiting[at] == 0 {
                insert(&mut self.ready, group);
            }
        }
    }

    // All arrows that come from a group are gone.
    pub fn release(&mut self, edges: &Edges, index: &Index, group: u16)
        ensures { self.new ≡
            released_edges edges.now (edges_from_group index.now.heads index.now.links group) self.old }
    {
        let mut member = entry(&index.heads, usize::from(group));
        while member > 0 {
            let to = target(edges, usize::from(member - 1));
            self.release_group(to);
            member = older(&index.links, member);
        }
    }
}
