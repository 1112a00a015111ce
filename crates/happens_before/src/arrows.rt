// Arrows into a group, drawn while there is room.
ghost use Rattle.std.specs.Prelude.{◌≡◌};
ghost use Rattle.chains.specs.Chains.{members};
ghost use Rattle.happens_before.specs.Drawing.{
  added,
  between,
  from_item,
  from_each,
  program_into,
  conflicts_into,
};

use crate::kept::{Accesses, Kept};
use crate::rows::{Told, group_at};
use chains::older;
use graph::Drawn;
use model::Trail;

// "An arrow goes from one group to another, different, group."
#[tactic(auto, unfolding(crate::specs::Drawing::added, crate::specs::Drawing::between))]
fn draw(from: u16, to: u16, drawn: &mut Drawn)
    ensures { drawn.new ≡ added (between from to) drawn.old }
{
    if from != to {
        drawn.draw(from, to);
    }
}

// The arrow from an item, if there is one.
#[tactic(auto, unfolding(crate::specs::Drawing::added, crate::specs::Drawing::from_item))]
fn draw_from(trail: &Trail, item: Option<u16>, to: u16, drawn: &mut Drawn)
    ensures { drawn.new ≡ added (from_item trail.now item to) drawn.old }
{
    if let Some(item) = item {
        draw(group_at(trail, usize::from(item)), to, drawn);
    }
}

// The arrow from each item of a list, the newest first.
fn draw_each(trail: &Trail, links: &[u16], newest: u16, to: u16, drawn: &mut Drawn)
    ensures { drawn.new ≡ added (from_each trail.now (members links.now newest) to) drawn.old }
{
    let mut member = newest;
    while member != 0 {
        draw(group_at(trail, usize::from(member - 1)), to, drawn);
        member = older(links, member);
    }
}

impl<const CELLS: usize> Kept<CELLS> {
    // "by program order": the arrow from the last command of the item's rank.
    #[tactic(auto, unfolding(crate::specs::Drawing::added, crate::specs::Drawing::program_into))]
    pub fn draw_program(&self, trail: &Trail, told: Told, drawn: &mut Drawn)
        ensures { drawn.new ≡ added (program_into trail.now self.now.commands told) drawn.old }
    {
        if let Some(rank) = told.rank {
            let last = self.commands.get(rank).copied().flatten();
            draw_from(trail, last, told.group, drawn);
        }
    }
}

impl<const CELLS: usize> Accesses<CELLS> {
    // "by conflict": a write gets an arrow from each access since the cell's last write, itself included, and a read gets one from that write alone.
    #[tactic(auto, unfolding(crate::specs::Drawing::added, crate::specs::Drawing::conflicts_into))]
    pub fn draw_conflicts(&self, trail: &Trail, told: Told, drawn: &mut Drawn)
        ensures { drawn.new ≡ added (conflicts_into trail.now self.now told) drawn.old }
    {
        if let Some(touch) = told.access {
            if touch.writes {
                let newest = self.newest.get(touch.cell).copied().unwrap_or(0);
                draw_each(trail, &self.links, newest, told.group, drawn);
            } else {
                let last = self.writes.get(touch.cell).copied().flatten();
                draw_from(trail, last, told.group, drawn);
            }
        }
    }
}
