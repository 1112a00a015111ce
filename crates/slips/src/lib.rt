// The slip of a run: how many command items each rank has, written as bytes and read back.
#![tactic(auto)]

mod lengths;
mod reader;

ghost use Rattle.std.specs.Prelude.{◌≡◌, ◌≤◌, length};
ghost use Rattle.model.specs.Checks.{fill};
ghost use Rattle.model.specs.Refusals.{Ok};
ghost use Rattle.model.specs.Lending.{lend, answering};
ghost use Rattle.model.specs.Slips.{write_slip, read_slip};
ghost use Rattle.slips.specs.Writing.{map_length, map_written, slip_from};

use crate::lengths::{map_length, slip_length};
use crate::reader::read_counts;
use lists::{fill_list, write};
use marking::{map_of, ones_in, values_of};
use model::refusals::{MEMORY_TOO_SHORT, SLIP_FORM};
use model::{CELLS, Filled, ITEMS, MAP_BYTES, RANKS, Refusal, TOLD};
use rank_counts::command_counts;
use replay::replay;

// The map at the front: "two bytes if N is above 8 and one otherwise".
fn write_map(slip: &mut [u8], ranks: u16, map: u64)
    requires { map_length ranks ≤ length slip.old }
    ensures { slip.new ≡ fill (map_written ranks map) slip.old }
{
    let length = map_length(ranks);
    slip[..length].copy_from_slice(&map.to_be_bytes()[MAP_BYTES - length..]);
}

// The slip of these counts for N ranks, where there is room for all of it.
fn write_counts(counts: &[u16], ranks: u16, slip: &mut [u8]) -> Filled
    ensures { answering result slip.new ≡ lend slip.old (Ok (slip_from ranks counts.now)) }
{
    let map = map_of(counts);
    let needed = slip_length(ranks, map);
    if slip.len() < needed {
        return Err(Refusal {
            number: MEMORY_TOO_SHORT,
            place: needed,
        });
    }
    let listed = values_of(map, counts);
    let behind = map_length(ranks);
    write_map(slip, ranks, map);
    write(&mut slip[behind..], 0, &listed, ones_in(map));
    Ok(needed)
}

// Writes the slip of an accepted record: "a .. map of ranks that have a command item .. then for each a two-byte count of those items". Program,
// start and record are refused as the check refuses them, and nothing is written then, nor where the lent bytes are too few.
pub fn write_slip(program: &[u8], start: &[u8], recorded: &[u8], slip: &mut [u8]) -> Filled
    ensures { answering result slip.new
        ≡ write_slip program.now start.now recorded.now slip.old }
{
    let mut cells = [[0; CELLS]; RANKS];
    let mut trail = [[0; TOLD]; ITEMS];
    let run = replay(program, start, recorded, &mut cells, &mut trail)?;
    let counts = command_counts(&trail, run.items);
    write_counts(&counts, run.header.ranks, slip)
}

// Reads a slip for N ranks: each rank's count fills its entry, 0 for a rank without a bit. "N outside 1..8 .. is 16 at byte 0"; document 02, #105:
// "The reader takes N 1..16." A slip that is not right is refused before a list that is too short, and nothing is written then.
#[tactic(auto, using(crate::proofs::Reading::ranks_refused, crate::proofs::Reading::read_refused, crate::proofs::Reading::read_left, crate::proofs::Reading::read_filled))]
pub fn read_slip(ranks: u16, slip: &[u8], counts: &mut [u16]) -> Filled
    ensures { answering result counts.new ≡ read_slip ranks slip.now counts.old }
{
    if !(1..=RANKS).contains(&usize::from(ranks)) {
        return Err(Refusal {
            number: SLIP_FORM,
            place: 0,
        });
    }
    let read = read_counts(slip, ranks)?;
    if read.next != slip.len() {
        return Err(Refusal {
            number: SLIP_FORM,
            place: read.next,
        });
    }
    fill_list(counts, &read.value, ranks as usize)
}
