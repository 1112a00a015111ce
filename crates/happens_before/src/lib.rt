// Happens-before between groups, drawn item by item from what the replay tells of each.
#![tactic(auto)]

mod arrows;
mod kept;
mod rows;

ghost use Rattle.std.specs.Prelude.{◌≡◌, true, ◌≤◌, ◌<◌};
ghost use Rattle.model.specs.Limits.{max_items};
ghost use Rattle.model.specs.HappensBefore.{edges_of};
ghost use Rattle.happens_before.specs.Told.{few_addresses, max_addresses, events_told};
ghost use Rattle.happens_before.specs.Drawing.{added, Inside, Draws};

use crate::kept::Kept;
use crate::rows::{ADDRESSES, FEW_ADDRESSES, FEW_ITEMS, told_at, told_in};
use graph::Drawn;
use model::{ITEMS, Trail};

// One item: the arrows into it by program order, then those by conflict, the nearest first; and it is kept.
fn draw_item<const CELLS: usize>(
    trail: &Trail,
    item: usize,
    kept: &mut Kept<CELLS>,
    drawn: &mut Drawn,
)
    requires { item < max_items }
    ensures { Draws trail.now item kept.old kept.new drawn.old drawn.new }
{
    let told = told_at(trail, item);
    kept.draw_program(trail, told, drawn);
    kept.accesses.draw_conflicts(trail, told, drawn);
    kept.keep_command(told, item as u16);
    kept.accesses.keep(told, item as u16);
}

// The arrows into each of the first items, with tables that have an entry for each cell that these access.
fn draw_items<const CELLS: usize>(trail: &Trail, last: usize, drawn: &mut Drawn)
    requires sized { CELLS ≤ max_addresses }
    requires few { last ≤ max_items }
    requires inside { Inside CELLS trail.now last }
    ensures { drawn.new ≡ added (edges_of (events_told last trail.now)) drawn.old }
{
    let mut kept = Kept::<CELLS>::none();
    for item in 0..last {
        draw_item(trail, item, &mut kept, drawn);
    }
}

// Whether a run is small: so few items that looking at each costs less than clearing tables for all cells, none of which accesses a cell beyond two
// ranks'. A small run's tables have entries for those cells alone, so that it does not pay for ranks that it does not have.
fn is_small(trail: &Trail, last: usize) -> bool
    requires { last ≤ max_items }
    ensures { result ≡ true → Inside few_addresses trail.now last }
{
    last <= FEW_ITEMS
        && trail.iter().take(last).all(|row| told_in(row)
            .access
            .is_none_or(|touch| touch.cell < FEW_ADDRESSES))
}

// The arrows between the groups of the first `items` rows of a trail, in the order in which they are met, drawn after those that are there already.
pub fn edges_of(trail: &Trail, items: usize, drawn: &mut Drawn)
    ensures { drawn.new ≡ added (edges_of (events_told items trail.now)) drawn.old }
{
    let last = items.min(ITEMS);
    if is_small(trail, last) {
        draw_items::<FEW_ADDRESSES>(trail, last, drawn);
    } else {
        draw_items::<ADDRESSES>(trail, last, drawn);
    }
}
