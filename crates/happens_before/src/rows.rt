// What a row of the trail tells.
ghost use Rattle.std.specs.Prelude.{◌≡◌, ◌<◌};
ghost use Rattle.model.specs.Limits.{max_items};
ghost use Rattle.happens_before.specs.Told.{named, touch_in, told_in, told_at};
ghost use Rattle.happens_before.specs.Drawing.{group_at};

use model::{CELLS, ITEMS, RANKS, TOLD, Trail};

// How many cells there are, all ranks together.
pub const ADDRESSES: usize = RANKS * CELLS;

// A small run: as many items at most, and as many cells as two ranks have.
pub const FEW_ITEMS: usize = 64;

pub const FEW_ADDRESSES: usize = 2 * CELLS;

// An access, told by the number that its cell has among those of all ranks, and whether it writes there.
#[derive(Clone, Copy)]
pub struct Touch {
    pub cell: usize,
    pub writes: bool,
}

// An item's rank if it is a command, counted from 0; its group; and its access if it makes one.
#[derive(Clone, Copy)]
pub struct Told {
    pub rank: Option<usize>,
    pub group: u16,
    pub access: Option<Touch>,
}

// A number of a row that is 0 for none, and else one more than what it tells.
fn named(number: u16, limit: usize) -> Option<usize>
    ensures { result ≡ named limit number }
{
    match number {
        0 => None,
        _ => Some(usize::from(number - 1)).filter(|told| *told < limit),
    }
}

// An access by its number in a row: twice the cell's number, plus 1 if it writes.
fn touch_in(access: u16) -> Option<Touch>
    ensures { result ≡ touch_in access }
{
    let number = named(access, 2 * ADDRESSES)?;
    Some(Touch {
        cell: number / 2,
        writes: number % 2 == 1,
    })
}

// What the three numbers of a row tell.
#[tactic(auto, unfolding(crate::specs::Told::told_in))]
pub fn told_in(row: &[u16; TOLD]) -> Told
    ensures { result ≡ told_in row.now }
{
    let [rank, group, access] = *row;
    if usize::from(group) < ITEMS {
        Told {
            rank: named(rank, RANKS),
            group,
            access: touch_in(access),
        }
    } else {
        Told {
            rank: None,
            group,
            access: None,
        }
    }
}

// What is told of an item.
pub fn told_at(trail: &Trail, item: usize) -> Told
    requires { item < max_items }
    ensures { result ≡ told_at trail.now item }
{
    told_in(&trail[item])
}

// An item's group; 0 outside the trail.
#[tactic(auto, unfolding(crate::specs::Drawing::group_at))]
pub fn group_at(trail: &Trail, item: usize) -> u16
    ensures { result ≡ group_at trail.now item }
{
    match trail.get(item) {
        Some(&[_, group, _]) => group,
        None => 0,
    }
}
