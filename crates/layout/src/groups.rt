// "then per group, in the answer's order, `group`, number, kind word, rank (0 for a barrier), first item"
ghost use Rattle.std.specs.Prelude.{◌≡◌, ◌+◌, ◌≤◌, min, length, take};
ghost use Rattle.model.specs.Limits.{max_items};
ghost use Rattle.layout.specs.Laid.{laid, LaysOut};
ghost use Rattle.layout.specs.Lines.{rank_shown, group_line_on, groups_told, group_lines_on, groups_long, farthest};

use crate::line::{Line, Page};
use crate::{Contents, groups_told};
use first_items::first_of;
use graph::Groups;
use model::{ITEMS, Item, Kind, Verdict};

// "rank (0 for a barrier)"
#[tactic(auto, unfolding(crate::specs::Lines::rank_shown))]
fn rank_shown(item: Item) -> u16
    ensures { result ≡ rank_shown item }
{
    if item.kind == Kind::Bar { 0 } else { item.rank }
}

// The groups that the verdict counts, but no more than the list has entries for.
fn counted(groups: &Groups, verdict: Verdict) -> &[u16]
    ensures first { result.now ≡ take (min (groups_told verdict) max_items) groups.now }
    ensures all { length result.now ≡ min (groups_told verdict) max_items }
{
    &groups[..groups_told(verdict).min(ITEMS)]
}

impl Contents<'_> {
    // A group's line, by its first item.
    #[tactic(auto, unfolding(crate::specs::Lines::group_line_on))]
    fn group_line(&self, group: u16) -> Line
        ensures { result ≡ group_line_on self.now.header self.now.recorded.now self.now.firsts.now group }
    {
        match first_of(self.recorded, self.header, self.firsts, group) {
            None => Line::Nothing,
            Some(first) => Line::Group {
                group,
                kind: first.item.kind,
                rank: rank_shown(first.item),
                first: first.number,
            },
        }
    }

    // The lines of the groups that the verdict counts, in the list's order.
    pub fn write_groups(&self, page: &mut Page<'_>)
        requires { page.old.at + groups_long ≤ farthest }
        ensures same { page.new.text.ghost_name ≡ page.old.text.ghost_name }
        ensures laid { LaysOut
            (group_lines_on self.now.groups.now (groups_told self.now.verdict) self.now.header self.now.recorded.now self.now.firsts.now)
            groups_long (laid page.old.text.now page.old.at) (laid page.new.text.now page.new.at) }
    {
        let groups = counted(self.groups, self.verdict);
        for &group in groups {
            let line = self.group_line(group);
            page.put(line);
        }
    }
}
