// Counts of command items, one for each rank: what a slip tells.
#![tactic(auto)]

ghost use Rattle.std.specs.Prelude.{◌≡◌};
ghost use Rattle.rank_counts.specs.Tallies.{ranks_told, tallied};

use memory::row_of;
use model::{RANKS, Trail};

// A count for each rank that there may be, rank 1 first.
pub type Counts = [u16; RANKS];

// How many command items each rank has, by the first `items` rows of a trail.
pub fn command_counts(trail: &Trail, items: usize) -> Counts
    ensures { result ≡ tallied (ranks_told items trail.now) }
{
    let mut counts = [0; RANKS];
    for told in trail.iter().take(items) {
        if let Some(row) = row_of(told[0]) {
            if row < RANKS {
                counts[row] += 1;
            }
        }
    }
    counts
}
