// The map of a list's values, and the values that a map marks, lowest bit first: what the writers of slips and of starts have in common.
#![tactic(auto)]

ghost use Rattle.std.specs.Prelude.{◌≡◌};
ghost use Rattle.std.specs.Int.Count.{ones};
ghost use Rattle.model.specs.Checks.{fill};
ghost use Rattle.marked.specs.Maps.{no_values};
ghost use Rattle.marking.specs.Marking.{map_of, values_of};

use marked::Values;
use marked::maps::Bits;
use model::CELLS;

// How many values a map marks.
pub fn ones_in(map: u64) -> usize
    ensures { result ≡ ones map }
{
    map.count_ones() as usize
}

// The map of the first 64 values: a bit for each that is not 0.
pub fn map_of(values: &[u16]) -> u64
    ensures { result ≡ map_of values.now }
{
    let mut map = 0;
    for (bit, &value) in values.iter().take(CELLS).enumerate() {
        if value > 0 {
            map |= 1 << bit;
        }
    }
    map
}

// The values of the map's bits, bits rising, in the first entries. A bit that has none in the list counts as 0.
pub fn values_of(map: u64, values: &[u16]) -> Values
    ensures { result ≡ fill (values_of map values.now) no_values }
{
    let mut marked = [0; CELLS];
    for (done, bit) in Bits(map).enumerate() {
        marked[done] = values.get(bit).copied().unwrap_or(0);
    }
    marked
}
