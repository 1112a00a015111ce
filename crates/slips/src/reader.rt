// Reading a slip: its map, then a count for each bit of the map, lowest first.
ghost use Rattle.std.specs.Prelude.{◌≡◌, ◌+◌, ◌^◌, ◌≤◌};
ghost use Rattle.model.specs.Limits.{max_ranks};
ghost use Rattle.model.specs.Slips.{map_field};
ghost use Rattle.slips.specs.Reading.{map_reader, counts_reader};

use fields::{read_byte, read_word, within};
use marked::Values;
use marked::reader::read_values;
use model::refusals::SLIP_FORM;
use model::{BYTE_RANKS, ITEMS, Read};

// "the rank map takes two bytes if N is above 8 and one otherwise"
#[tactic(auto, unfolding(model::specs::Slips::map_field))]
fn map_field(slip: &[u8], ranks: u16) -> Read<u16>
    ensures { result ≡ map_field ranks slip.now 0 }
{
    if BYTE_RANKS < ranks {
        read_word(slip, 0, SLIP_FORM)
    } else {
        read_byte(slip, 0, SLIP_FORM)
    }
}

// The map in which every rank up to N has its bit.
fn full_map(ranks: u16) -> u16
    requires { ranks ≤ max_ranks }
    ensures { result + 1 ≡ 2 ^ ranks }
{
    let beyond: u32 = 1 << ranks;
    (beyond - 1) as u16
}

// "a bit for a rank above N is 16 at byte 0"
fn read_map(slip: &[u8], ranks: u16) -> Read<u16>
    requires { ranks ≤ max_ranks }
    ensures { result ≡ map_reader ranks slip.now 0 }
{
    within(map_field(slip, ranks), 0, 0, full_map(ranks), SLIP_FORM)
}

// The counts of the map's ranks: "a count of 0 or above 1,024, a missing byte .. is 16 there".
#[tactic(auto, unfolding(crate::specs::Reading::counts_reader))]
pub fn read_counts(slip: &[u8], ranks: u16) -> Read<Values>
    requires { ranks ≤ max_ranks }
    ensures { result ≡ counts_reader ranks slip.now 0 }
{
    let map = read_map(slip, ranks)?;
    read_values(
        slip,
        map.next,
        u64::from(map.value),
        ITEMS as u16,
        SLIP_FORM,
    )
}
