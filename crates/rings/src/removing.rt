// Taking groups out. For each group a cursor stands at the first of its arrows that may lead to a group that is left, and at 0 where the group is
// taken out: one with no arrow to a group that is left is on no way round, and goes too.
ghost use Rattle.std.specs.Prelude.{◌≡◌};
ghost use Rattle.rings.specs.Removing.{FirstLeft, Removable, Thinned, TakenOut};

use crate::arrows::Arrows;
use crate::queues::Queue;
use chains::older;
use graph::{Groups, source, target};
use indexing::entry;
use model::ITEMS;

impl<'a> Arrows<'a> {
    // From a member of a list on, the first whose arrow leads to a group that is left; 0 if none does.
    fn first_left(&self, member: u16, cursors: &Groups) -> u16
        ensures { FirstLeft self.now.edges.now self.now.onward cursors.now member result }
    {
        let mut next = member;
        while next > 0 {
            let to = target(self.edges, next as usize - 1);
            if entry(cursors, to as usize) > 0 {
                return next;
            }
            next = older(&self.onward, next);
        }
        0
    }

    // Moves the cursor of a group over arrows to groups that are taken out. Where no arrow is left, the group is taken out and put into the queue.
    fn pass_over(&self, from: u16, cursors: &mut Groups, queue: &mut Queue)
        ensures { Thinned self.now.edges.now self.now.onward cursors.old cursors.new queue.new.groups queue.new.end }
    {
        let group = from as usize;
        if group < ITEMS && queue.end < ITEMS {
            let member = cursors[group];
            if member > 0 {
                let next = self.first_left(member, cursors);
                cursors[group] = next;
                if next == 0 {
                    queue.push(from);
                }
            }
        }
    }

    // The groups with an arrow to one that was taken out.
    fn release(&self, group: u16, cursors: &mut Groups, queue: &mut Queue)
        ensures { Thinned self.now.edges.now self.now.onward cursors.old cursors.new queue.new.groups queue.new.end }
    {
        for edge in self.into(group) {
            self.pass_over(source(self.edges, edge), cursors, queue);
        }
    }

    // The same for each group of the queue, which grows by those that are taken out.
    fn release_all(&self, cursors: &mut Groups, queue: &mut Queue)
        ensures { Thinned self.now.edges.now self.now.onward cursors.old cursors.new queue.new.groups queue.new.end }
    {
        let mut at = 0;
        while at < queue.end {
            let next = entry(&queue.groups, at);
            self.release(next, cursors, queue);
            at += 1;
        }
    }

    // Takes a group out, and then each that has no arrow to a group that is left.
    pub fn take_out(&self, group: u16, cursors: &mut Groups, queue: &mut Queue)
        requires { Removable group cursors.old queue.old.groups }
        ensures { TakenOut group self.now.edges.now self.now.onward cursors.old cursors.new queue.new.groups }
    {
        cursors[group as usize] = 0;
        queue.begin(group);
        self.release_all(cursors, queue);
    }
}
