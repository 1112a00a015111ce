// The verdict on a replayed record, from what the replay tells of each item.
#![tactic(auto)]

ghost use Rattle.std.specs.Prelude.{◌≡◌};
ghost use Rattle.verdicts.specs.Judged.{judged_as};
ghost use Rattle.judging.specs.Told.{verdict_told};

use graph::Drawn;
use happens_before::edges_of;
use model::Trail;
use verdicts::{Judged, verdict};

// What the arrows between so many groups come to, by the first `items` rows of a trail.
pub fn judge(trail: &Trail, items: usize, groups: u16) -> Judged
    ensures { result ≡ judged_as (verdict_told groups items trail.now) }
{
    let mut drawn = Drawn::none();
    edges_of(trail, items, &mut drawn);
    verdict(groups, &drawn)
}
