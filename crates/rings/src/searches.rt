// The search back from a group through the groups that are left.
ghost use Rattle.std.specs.Prelude.{◌≡◌};
ghost use Rattle.rings.specs.Searches.{reached_at, Meets, Visits, Ahead, Back, Better, ClosesBy, Closes, Ready, Measured, Searched, closing_in};

use crate::arrows::Arrows;
use crate::closings::Closing;
use crate::queues::Queue;
use graph::{Groups, source, target};
use indexing::entry;
use model::ITEMS;

// A group that was met, its distance, and the lowest group on its way.
#[derive(Clone, Copy)]
pub struct Reached {
    pub group: u16,
    pub level: u16,
    pub low: u16,
}

// The lower of two, if there are two.
pub fn better(best: Option<Closing>, found: Option<Closing>) -> Option<Closing>
    ensures { Better (closing_in best) (closing_in found) (closing_in result) }
{
    match (best, found) {
        (Some(best), Some(found)) => Some(best.min(found)),
        (None, found) => found,
        (best, None) => best,
    }
}

// What a search notes: for each group its distance, which is 1 more than the arrows to the root and 0 if it was not met, and the lowest group on its way;
// and the groups met.
#[derive(Drop)]
pub struct Search {
    pub distances: Groups,
    pub lows: Groups,
    pub queue: Queue,
}

impl Search {
    // The group at a place of the queue.
    fn reached_at(&self, at: usize) -> Reached
        ensures { result ≡ reached_at at self.now.distances self.now.lows self.now.queue.groups }
    {
        let group = entry(&self.queue.groups, at);
        let level = entry(&self.distances, group as usize);
        let low = entry(&self.lows, group as usize);
        Reached { group, level, low }
    }

    // Meets a group at this distance, by way of a group from which the lowest on the way is `low`. One that was met at this distance has the lowest of
    // both ways.
    fn meet(&mut self, from: u16, distance: u16, low: u16)
        ensures { Meets from distance low self.old.distances self.old.lows self.old.queue.groups self.old.queue.end
            self.new.distances self.new.lows self.new.queue.groups self.new.queue.end }
    {
        let group = from as usize;
        if group < ITEMS {
            let known = self.distances[group];
            if known == 0 {
                if self.queue.end < ITEMS {
                    self.distances[group] = distance;
                    self.lows[group] = from.min(low);
                    self.queue.push(from);
                }
            } else if known == distance {
                self.lows[group] = self.lows[group].min(low);
            }
        }
    }

    // Meets the group that an arrow comes from, if it is left.
    fn visit(&mut self, from: u16, distance: u16, low: u16, left: &Groups)
        ensures { Visits from distance low left.now
            self.old.distances self.old.lows self.old.queue.groups self.old.queue.end
            self.new.distances self.new.lows self.new.queue.groups self.new.queue.end }
    {
        if entry(left, from as usize) != 0 {
            self.meet(from, distance, low);
        }
    }

    // Goes back along the arrows into the group at a place of the queue.
    fn step_back(&mut self, at: usize, next: Reached, arrows: &Arrows, left: &Groups)
        requires { Ahead at next self.old.queue.end self.old.distances self.old.lows self.old.queue.groups }
        ensures { Back at self.old.queue.end arrows.now.edges.now arrows.now.heads arrows.now.links left.now
            self.old.distances self.old.lows self.old.queue.groups
            self.new.distances self.new.lows self.new.queue.groups self.new.queue.end }
    {
        let distance = next.level + 1;
        let low = next.low;
        for edge in arrows.into(next.group) {
            self.visit(source(arrows.edges, edge), distance, low, left);
        }
    }

    // Meets the groups from which fewer than so many arrows lead to a root, through the groups that are left.
    pub fn measure(&mut self, root: u16, most: u16, arrows: &Arrows, left: &Groups)
        requires { Ready root most self.old.lows self.old.queue.groups }
        ensures { Measured root most arrows.now.edges.now arrows.now.heads arrows.now.links left.now
            self.new.distances self.new.lows self.new.queue.groups }
    {
        self.distances = [0; ITEMS];
        self.distances[root as usize] = 1;
        self.lows[root as usize] = root;
        self.queue.begin(root);
        let mut at = 0;
        while at < self.queue.end {
            let next = self.reached_at(at);
            if most <= next.level {
                return;
            }
            self.step_back(at, next, arrows, left);
            at += 1;
        }
    }

    // The shortest ways round by an arrow from the root to a group, if they have at most so many arrows.
    fn closing_by(&self, root: u16, to: u16, most: u16) -> Option<Closing>
        ensures { ClosesBy root to most self.now.distances self.now.lows (closing_in result) }
    {
        let arrows = entry(&self.distances, to as usize);
        if 0 < arrows && arrows <= most {
            let group = root.min(entry(&self.lows, to as usize));
            Some(Closing { arrows, group })
        } else {
            None
        }
    }

    // The same by all arrows from the root to groups that are left.
    fn closing_of(&self, root: u16, most: u16, arrows: &Arrows, left: &Groups) -> Option<Closing>
        ensures { Closes root most arrows.now.edges.now arrows.now.onward left.now self.now.distances self.now.lows (closing_in result) }
    {
        let mut best = None;
        for edge in arrows.onward_from(entry(left, root as usize)) {
            let to = target(arrows.edges, edge);
            best = better(best, self.closing_by(root, to, most));
        }
        best
    }

    // How many arrows lead back to a group through the groups that are left, at most so many, and the lowest group on such a way.
    pub fn search(
        &mut self,
        root: u16,
        most: u16,
        arrows: &Arrows,
        left: &Groups,
    ) -> Option<Closing>
        requires { Ready root most self.old.lows self.old.queue.groups }
        ensures { Searched root most arrows.now.edges.now arrows.now.heads arrows.now.links arrows.now.onward left.now
            self.new.lows self.new.queue.groups (closing_in result) }
    {
        self.measure(root, most, arrows, left);
        self.closing_of(root, most, arrows, left)
    }
}
