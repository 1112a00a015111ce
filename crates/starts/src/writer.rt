// Writing a start: for each rank in turn its map, then a value for each of the map's bits. All bytes are counted before the first is written.
ghost use Rattle.std.specs.Prelude.{◌≡◌, ◌≤◌, length};
ghost use Rattle.model.specs.Limits.{map_size};
ghost use Rattle.model.specs.Bytes.{big_endian_bytes};
ghost use Rattle.model.specs.Checks.{fill};
ghost use Rattle.model.specs.Lending.{answering, lend};
ghost use Rattle.starts.specs.Writing.{rank_length, WritesRank, ranks_written, Has, HasRoom, start_of_list, Listed};

use lists::write;
use marking::{map_of, ones_in, values_of};
use model::refusals::MEMORY_TOO_SHORT;
use model::{Filled, Header, MAP_BYTES, Refusal};

// The map in its eight bytes, the lowest last.
fn write_map(map: u64, start: &mut [u8])
    requires { map_size ≤ length start.old }
    ensures { start.new ≡ fill (big_endian_bytes map_size map) start.old }
{
    start[..MAP_BYTES].copy_from_slice(&map.to_be_bytes());
}

// How many bytes a rank's readings take.
#[tactic(auto, using(crate::proofs::Writing::ones_few))]
fn rank_length(readings: &[u16]) -> usize
    ensures { result ≡ rank_length readings.now }
{
    MAP_BYTES + 2 * ones_in(map_of(readings))
}

// A rank's readings, at the front of bytes that have room for them; and how many bytes they take.
fn write_rank(readings: &[u16], start: &mut [u8]) -> usize
    requires { rank_length readings.now ≤ length start.old }
    ensures { WritesRank readings.now start.old start.new result }
{
    let map = map_of(readings);
    let count = ones_in(map);
    let values = values_of(map, readings);
    let behind = MAP_BYTES;
    write_map(map, start);
    write(&mut start[behind..], 0, &values, count);
    behind + 2 * count
}

// How many bytes the readings of so many ranks take.
fn ranks_length(cells: &[u16], ranks: usize, width: usize) -> usize
    requires { Has cells.now ranks width }
    ensures { result ≡ length (ranks_written width cells.now 0 ranks) }
{
    let mut length = 0;
    for row in 0..ranks {
        let first = row * width;
        let end = first + width;
        length += rank_length(&cells[first..end]);
    }
    length
}

// The readings of so many ranks, one after the other, where there is room for them all.
fn write_ranks(cells: &[u16], ranks: usize, width: usize, start: &mut [u8])
    requires { HasRoom cells.now start.old ranks width }
    ensures { start.new ≡ fill (ranks_written width cells.now 0 ranks) start.old }
{
    let mut at = 0;
    for row in 0..ranks {
        let first = row * width;
        let end = first + width;
        at += write_rank(&cells[first..end], &mut start[at..]);
    }
}

// The start of a list that has so many entries: "list, then memory, too short gives 15", with the length needed.
pub fn write_list(header: Header, entries: usize, cells: &[u16], start: &mut [u8]) -> Filled
    requires { Listed header entries cells.now }
    ensures { answering result start.new ≡ lend start.old (start_of_list header entries cells.now) }
{
    let ranks = header.ranks as usize;
    let width = header.cells as usize;
    let count = ranks * width;
    if entries < count {
        return Err(Refusal {
            number: MEMORY_TOO_SHORT,
            place: count,
        });
    }
    let needed = ranks_length(cells, ranks, width);
    if start.len() < needed {
        return Err(Refusal {
            number: MEMORY_TOO_SHORT,
            place: needed,
        });
    }
    write_ranks(cells, ranks, width, start);
    Ok(needed)
}
