// Groups in a row, no more than there may be.
ghost use Rattle.std.specs.Prelude.{◌≡◌, ◌+◌, ◌≤◌, ◌<◌, set};
ghost use Rattle.model.specs.Limits.{max_items};

use graph::Groups;

// Groups in the order in which they were put in.
#[derive(Drop)]
pub struct Queue {
    pub groups: Groups,
    pub end: usize,
    ghost fits: { end ≤ max_items },
}

impl Queue {
    // Begins anew, with one group.
    pub fn begin(&mut self, group: u16)
        ensures groups { self.new.groups ≡ set self.old.groups 0 group }
        ensures end { self.new.end ≡ 1 }
    {
        self.groups[0] = group;
        self.end = 1;
    }

    // Puts in one more.
    pub fn push(&mut self, group: u16)
        requires { self.old.end < max_items }
        ensures groups { self.new.groups ≡ set self.old.groups self.old.end group }
        ensures end { self.new.end ≡ self.old.end + 1 }
    {
        self.groups[self.end] = group;
        self.end += 1;
    }
}
