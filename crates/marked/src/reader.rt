// Reading the values that a map marks, lowest bit first.
ghost use Rattle.std.specs.Prelude.{◌≡◌};
ghost use Rattle.marked.specs.Reading.{value_reader, values_at};

use crate::Values;
use crate::maps::Bits;
use fields::{read_word, within};
use model::{CELLS, Found, Read};

// A value of two bytes, 1 to `most`; its fault has the number `fault`, also where a byte is missing.
#[tactic(auto, unfolding(model::specs::Bytes::judged))]
fn read_value(bytes: &[u8], at: usize, most: u16, fault: u8) -> Read<u16>
    ensures { result ≡ value_reader most fault bytes.now at }
{
    within(read_word(bytes, at, fault), at, 1, most, fault)
}

// The values of a map's bits, from a place on, each in the entry of its bit and 0 in the others.
#[tactic(auto, using(crate::proofs::Bits::bit_inside), unfolding(crate::specs::Reading::read_bits, crate::specs::Reading::values_at))]
pub fn read_values(bytes: &[u8], at: usize, map: u64, most: u16, fault: u8) -> Read<Values>
    ensures { result ≡ values_at most fault map bytes.now at }
{
    let mut values = [0; CELLS];
    let mut next = at;
    for bit in Bits(map) {
        let read = read_value(bytes, next, most, fault)?;
        values[bit] = read.value;
        next = read.next;
    }
    Ok(Found {
        value: values,
        next,
    })
}
