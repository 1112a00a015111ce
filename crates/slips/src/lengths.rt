// How many bytes a slip has.
ghost use Rattle.std.specs.Prelude.{◌≡◌};
ghost use Rattle.slips.specs.Writing.{map_length, slip_length};

use marking::ones_in;
use model::BYTE_RANKS;

// How many bytes the map of N ranks has: "two bytes if N is above 8 and one otherwise".
pub fn map_length(ranks: u16) -> usize
    ensures { result ≡ map_length ranks }
{
    if BYTE_RANKS < ranks { 2 } else { 1 }
}

// "the slip has as many counts as the map has ones", of two bytes each behind the map.
#[tactic(auto, using(crate::proofs::Writing::map_length_few, crate::proofs::Writing::ones_few))]
pub fn slip_length(ranks: u16, map: u64) -> usize
    ensures { result ≡ slip_length ranks map }
{
    map_length(ranks) + 2 * ones_in(map)
}
