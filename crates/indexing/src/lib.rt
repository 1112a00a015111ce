// What placing and ring look up: an entry by group, the arrows that come from each group, as lists, and how many lead into each.
#![tactic(auto)]

ghost use Rattle.std.specs.Prelude.{◌≡◌};
ghost use Rattle.model.specs.Choice.{numbers_from};
ghost use Rattle.indexing.specs.Entries.{entry_at};
ghost use Rattle.indexing.specs.Indexes.{empty_index, raised, indexed_edge, indexed, readied, readied_all};

use bitmap::{Bitmap, insert};
use chains::push;
use graph::{Drawn, EDGES, Edges, Groups, edges_in, source, target};
use model::ITEMS;

// For each arrow the one below it in its list.
pub type Links = [u16; EDGES];

// An entry of an array; 0 outside it.
#[tactic(auto, unfolding(crate::specs::Entries::entry_at))]
pub fn entry(list: &Groups, place: usize) -> u16
    ensures { result ≡ entry_at list.now place }
{
    list.get(place).copied().unwrap_or(0)
}

// Lists of arrows by the group that they come from, and how many arrows lead into each group.
#[derive(Drop)]
pub struct Index {
    pub heads: Groups,
    pub links: Links,
    pub waiting: Groups,
}

// One arrow more leads into a group. No group has more of them than there are arrows, so the count fits.
#[tactic(auto, unfolding(crate::specs::Indexes::raised))]
fn raise(waiting: &mut Groups, group: usize)
    ensures { waiting.new ≡ raised waiting.old group }
{
    if group < ITEMS && waiting[group] < EDGES as u16 {
        waiting[group] += 1;
    }
}

// Notes a group into which no arrow leads as one that can be placed.
#[tactic(auto, unfolding(crate::specs::Indexes::readied))]
fn ready_if_free(waiting: &Groups, group: usize, ready: &mut Bitmap)
    ensures { ready.new ≡ readied waiting.now group ready.old }
{
    if group < ITEMS && waiting[group] == 0 {
        insert(ready, group as u16);
    }
}

impl Index {
    // No arrow is noted.
    pub fn none() -> Index
        ensures { result ≡ empty_index }
    {
        Index {
            heads: [0; ITEMS],
            links: [0; EDGES],
            waiting: [0; ITEMS],
        }
    }

    // Notes the arrow with this number, if it is between groups.
    #[tactic(auto, unfolding(crate::specs::Indexes::indexed_edge))]
    fn note(&mut self, groups: usize, edges: &Edges, edge: usize)
        ensures { self.new ≡ indexed_edge groups edges.now edge self.old }
    {
        if edge < EDGES {
            let from = usize::from(source(edges, edge));
            let to = usize::from(target(edges, edge));
            if from < groups && to < groups {
                push(&mut self.heads, &mut self.links, from, (edge + 1) as u16);
                raise(&mut self.waiting, to);
            }
        }
    }

    // Notes all arrows that are between groups.
    pub fn note_all(&mut self, groups: usize, drawn: &Drawn)
        ensures { self.new ≡ indexed groups drawn.now.count drawn.now.edges self.old }
    {
        let last = edges_in(drawn.count);
        for edge in 0..last {
            self.note(groups, &drawn.edges, edge);
        }
    }

    // The groups below `groups` into which no arrow leads can be placed.
    pub fn find_ready(&self, groups: usize, ready: &mut Bitmap)
        ensures { ready.new ≡ readied_all self.now.waiting (numbers_from 0 groups) ready.old }
    {
        for group in 0..groups {
            ready_if_free(&self.waiting, group, ready);
        }
    }
}
