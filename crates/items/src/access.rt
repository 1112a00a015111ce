// An item's access: whether the item says the same of it, and what the drawing of arrows needs of it.
ghost use Rattle.std.specs.Prelude.{◌≡◌};
ghost use Rattle.model.specs.Replay.{agrees, agrees_with};
ghost use Rattle.items.specs.Accesses.{held, access_told};

use model::{Access, Address, CELLS, Item, RANKS};

// "An absent value is not checked."
#[tactic(auto, unfolding(model::specs::Replay::agrees))]
fn agrees(given: Option<u16>, value: u16) -> bool
    ensures { result ≡ agrees given value }
{
    match given {
        Some(expected) => expected == value,
        None => true,
    }
}

// "place or given value differs from the replay"
#[tactic(auto, unfolding(model::specs::Replay::agrees_with))]
pub fn agrees_with(item: Item, access: Option<Access>) -> bool
    ensures { result ≡ agrees_with item access }
{
    match access {
        Some(access) => item.place == access.address && agrees(item.given, access.value),
        None => true,
    }
}

// Whether the arrays have a cell for an address.
fn held(place: Address) -> bool
    ensures { result ≡ held place }
{
    let rank = usize::from(place.rank);
    1 <= rank && rank <= RANKS && usize::from(place.cell) < CELLS
}

// The number of an access: 0 for none, and else which cell and whether it writes.
#[tactic(auto, unfolding(crate::specs::Accesses::access_told))]
pub fn access_number(access: Option<Access>) -> u16
    ensures { result ≡ access_told access }
{
    match access {
        Some(
            Access {
                writes,
                address,
                ..
            },
        ) if held(address) => {
            let cell = usize::from(address.rank - 1) * CELLS + usize::from(address.cell);
            (1 + cell * 2 + usize::from(writes)) as u16
        }
        _ => 0,
    }
}
