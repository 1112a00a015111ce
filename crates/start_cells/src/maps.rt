// A rank's map: a big-endian number of eight bytes, bit a for cell a.
ghost use Rattle.std.specs.Prelude.{◌≡◌, ◌^◌, ltb};
ghost use Rattle.model.specs.Limits.{map_size};
ghost use Rattle.model.specs.Refusals.{start_form};
ghost use Rattle.model.specs.Bytes.{big_endian};
ghost use Rattle.model.specs.StartBytes.{start_map};

use model::refusals::START_FORM;
use model::{Found, MAP_BYTES, Read, Refusal};

// The eight bytes at a place, the highest first.
fn eight_bytes(start: &[u8], at: usize) -> Read<u64>
    ensures { result ≡ big_endian start_form map_size 0 start.now at }
{
    match start.get(at..).and_then(|rest| rest.first_chunk()) {
        Some(bytes) => Ok(Found {
            value: u64::from_be_bytes(*bytes),
            next: at + MAP_BYTES,
        }),
        None => Err(Refusal {
            number: START_FORM,
            place: start.len(),
        }),
    }
}

// Whether a map has bits for the first `cells` cells alone.
fn within_cells(map: u64, cells: u16) -> bool
    ensures { result ≡ ltb map (2 ^ cells) }
{
    match 1_u64.checked_shl(u32::from(cells)) {
        Some(limit) => map < limit,
        None => true,
    }
}

// A map, of which "a bit for a cell A or above" is the fault.
#[tactic(auto, unfolding(model::specs::StartBytes::start_map, model::specs::Bytes::judged))]
pub fn read_map(start: &[u8], at: usize, cells: u16) -> Read<u64>
    ensures { result ≡ start_map cells start.now at }
{
    let map = eight_bytes(start, at)?;
    if within_cells(map.value, cells) {
        Ok(map)
    } else {
        Err(Refusal {
            number: START_FORM,
            place: at,
        })
    }
}
