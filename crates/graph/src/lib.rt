// Arrows between groups in arrays: a row of two group numbers for each, from and to.
#![tactic(auto)]

ghost use Rattle.std.specs.Prelude.{◌≡◌, min};
ghost use Rattle.model.specs.Limits.{max_edges};
ghost use Rattle.graph.specs.Edges.{source_at, target_at, groups_in};
ghost use Rattle.model.specs.HappensBefore.{◌⟶◌};
ghost use Rattle.graph.specs.Drawn.{none_drawn, one_more};

use model::ITEMS;

// A record's arrows: for each item at most one by program order and two by conflict.
pub const EDGES: usize = 3 * ITEMS;

pub const ENDPOINTS: usize = 2;

pub type Edges = [[u16; ENDPOINTS]; EDGES];

// A number for each group, or a list of groups: a record has at most as many groups as items.
pub type Groups = [u16; ITEMS];

// The group that an arrow comes from; 0 outside the array.
#[tactic(auto, unfolding(crate::specs::Edges::source_at))]
pub fn source(edges: &Edges, edge: usize) -> u16
    ensures { result ≡ source_at edges.now edge }
{
    match edges.get(edge) {
        Some(&[from, _]) => from,
        None => 0,
    }
}

// The group that an arrow leads to; 0 outside the array.
#[tactic(auto, unfolding(crate::specs::Edges::target_at))]
pub fn target(edges: &Edges, edge: usize) -> u16
    ensures { result ≡ target_at edges.now edge }
{
    match edges.get(edge) {
        Some(&[_, to]) => to,
        None => 0,
    }
}

// So many groups, but no more than the arrays have entries for.
#[tactic(auto, unfolding(crate::specs::Edges::groups_in))]
pub fn groups_in(groups: u16) -> usize
    ensures { result ≡ groups_in groups }
{
    usize::from(groups).min(ITEMS)
}

// So many arrows, but no more than the array has rows for.
pub fn edges_in(count: usize) -> usize
    ensures { result ≡ min count max_edges }
{
    count.min(EDGES)
}

// What the drawing of arrows leaves: the arrows in the array's first rows, and how many there are.
#[derive(Drop)]
pub struct Drawn {
    pub count: usize,
    pub edges: Edges,
}

impl Drawn {
    // No arrow yet.
    pub fn none() -> Drawn
        ensures { result ≡ none_drawn }
    {
        Drawn {
            count: 0,
            edges: [[0; ENDPOINTS]; EDGES],
        }
    }

    // An arrow more, where there is room for it.
    #[tactic(auto, unfolding(crate::specs::Drawn::one_more))]
    pub fn draw(&mut self, from: u16, to: u16)
        ensures { self.new ≡ one_more (from ⟶ to) self.old }
    {
        if self.count < EDGES {
            self.edges[self.count] = [from, to];
            self.count += 1;
        }
    }
}
