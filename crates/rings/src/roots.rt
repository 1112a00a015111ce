// The group from which the fewest arrows lead back to it, and of several the lowest.
ghost use Rattle.std.specs.Prelude.{◌≡◌};
ghost use Rattle.model.specs.Limits.{max_items};
ghost use Rattle.rings.specs.Searches.{closing_in};
ghost use Rattle.rings.specs.Roots.{Entered, limit_of, Grown, Rooted, Chosen};

use crate::arrows::Arrows;
use crate::closings::Closing;
use crate::searches::{Search, better};
use graph::source;
use indexing::entry;
use model::ITEMS;

// So many arrows are looked for first, and so many times as many each time that none were found.
const FIRST: u16 = 2;

const TIMES: u16 = 2;

// Whether an arrow leads into a group from one that is not below it: every way round has such a group.
fn entered(root: u16, arrows: &Arrows) -> bool
    ensures { Entered root arrows.now.edges.now arrows.now.heads arrows.now.links result }
{
    for edge in arrows.into(root) {
        if root <= source(arrows.edges, edge) {
            return true;
        }
    }
    false
}

// How many arrows are looked for next: no more than lead back to the best group so far.
fn limit_of(best: Option<Closing>, most: u16) -> u16
    ensures { result ≡ limit_of (closing_in best) most }
{
    match best {
        Some(best) => best.arrows,
        None => most,
    }
}

// Looks for at most so many arrows from each group, the highest first, through those that are left; then it is taken out, since every way round
// through it was looked at.
fn closest_within(groups: usize, most: u16, arrows: &Arrows, search: &mut Search) -> Option<Closing>
    requires { Rooted groups most arrows.now.tails search.old.lows search.old.queue.groups }
    ensures { Chosen groups most arrows.now.edges.now arrows.now.heads arrows.now.links arrows.now.tails arrows.now.onward
        search.new.lows search.new.queue.groups (closing_in result) }
{
    let mut cursors = arrows.tails;
    let mut best = None;
    for group in (0..groups).rev() {
        let root = group as u16;
        if entry(&cursors, group) > 0 {
            if entered(root, arrows) {
                let found = search.search(root, limit_of(best, most), arrows, &cursors);
                best = better(best, found);
                arrows.take_out(root, &mut cursors, &mut search.queue);
            }
        }
    }
    best
}

// How many arrows are looked for when no way round of so many was found.
fn more_than(most: u16) -> u16
    ensures { Grown most result }
{
    most.saturating_mul(TIMES).min(ITEMS as u16)
}

// Looks for few arrows first: most rings are short, and a far one is looked for when no near one is there.
pub fn closest(groups: usize, arrows: &Arrows, search: &mut Search) -> Option<Closing>
    requires { Rooted groups max_items arrows.now.tails search.old.lows search.old.queue.groups }
    ensures { Chosen groups max_items arrows.now.edges.now arrows.now.heads arrows.now.links arrows.now.tails arrows.now.onward
        search.new.lows search.new.queue.groups (closing_in result) }
{
    let mut most = FIRST;
    loop {
        let best = closest_within(groups, most, arrows, search);
        if best.is_some() {
            return best;
        }
        if ITEMS as u16 <= most {
            return None;
        }
        most = more_than(most);
    }
}
