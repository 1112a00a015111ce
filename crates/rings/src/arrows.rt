// Which arrows count, and lists of them: by the group that they lead to, and by the group that they come from.
ghost use Rattle.std.specs.Prelude.{◌≡◌, ◌≤◌};
ghost use Rattle.model.specs.Limits.{max_items};
ghost use Rattle.graph.specs.Edges.{edges_in};
ghost use Rattle.std.specs.Iterator.{YieldsFirst, item_count};
ghost use Rattle.chains.specs.Chains.{members};
ghost use Rattle.indexing.specs.Entries.{entry_at};
ghost use Rattle.rings.specs.Found.{counts, counted, edge};
ghost use Rattle.rings.specs.Searches.{Indexed, Cleared};

use chains::{older, push};
use graph::{Edges, Groups, edges_in, source, target};
use indexing::{Links, entry};

// Whether an arrow is between groups, and comes from one that waits.
pub fn counts(groups: usize, waiting: &Groups, from: u16, to: u16) -> bool
    requires { groups ≤ max_items }
    ensures { result ≡ counts groups waiting.now (edge from to) }
{
    let group = from as usize;
    if group < groups && (to as usize) < groups {
        return waiting[group] != 0;
    }
    false
}

// Arrows, and lists of those that count: from its head a group has those that lead to it, through the links; from its tail those that come from it,
// onward.
#[derive(Drop)]
pub struct Arrows<'a> {
    pub edges: &'a Edges,
    pub heads: Groups,
    pub links: Links,
    pub tails: Groups,
    pub onward: Links,
}

impl<'a> Arrows<'a> {
    // Puts each arrow that counts into the list of the group that it leads to, and into that of the group that it comes from.
    pub fn list(&mut self, groups: usize, count: usize, waiting: &Groups)
        requires { Cleared groups self.old.heads self.old.links self.old.tails self.old.onward }
        ensures same { self.new.edges ≡ self.old.edges }
        ensures indexed { Indexed groups (counted groups waiting.now (edges_in count self.old.edges.now)) self.old.edges.now
            self.new.heads self.new.links self.new.tails self.new.onward }
    {
        for edge in 0..edges_in(count) {
            let from = source(self.edges, edge);
            let to = target(self.edges, edge);
            if counts(groups, waiting, from, to) {
                let member = (edge + 1) as u16;
                push(&mut self.heads, &mut self.links, to as usize, member);
                push(&mut self.tails, &mut self.onward, from as usize, member);
            }
        }
    }

    // The arrows that lead to a group.
    pub fn into(&self, group: u16) -> Members<'_>
        ensures { members result.links.now result.next ≡ members self.now.links (entry_at self.now.heads group) }
    {
        Members {
            links: &self.links,
            next: entry(&self.heads, group as usize),
        }
    }

    // The arrows from a member of a list by source on.
    pub fn onward_from(&self, member: u16) -> Members<'_>
        ensures { members result.links.now result.next ≡ members self.now.onward member }
    {
        Members {
            links: &self.onward,
            next: member,
        }
    }
}

// The arrows of a list from one on, by their numbers, the newest first. The next is named by its number plus 1, and 0 names none.
#[derive(Drop)]
pub struct Members<'a> {
    pub links: &'a [u16],
    pub next: u16,
}

impl<'a> Iterator for Members<'a> {
    type Item = usize;

    ghost next_gives = { YieldsFirst (λ s. members s.links.now s.next) };

    ghost remaining = { item_count (λ s. members s.links.now s.next) };

    fn next(&mut self) -> Option<usize> {
        if self.next == 0 {
            return None;
        }
        let edge = self.next as usize - 1;
        self.next = older(self.links, self.next);
        Some(edge)
    }
}
