// The first item of each group of a record: its number, and its place in the record's bytes, where it is read again.
#![tactic(auto)]

ghost use Rattle.std.specs.Prelude.{◌≡◌};
ghost use Rattle.first_items.specs.Firsts.{noted_under, noted, first_items, first_of};

use model::{Header, ITEMS, Item, Trail};
use record::item::read_item;
use record::reader::FIRST_ITEM;

// An item's number, and its place.
#[derive(Clone, Copy)]
pub struct Noted {
    pub number: u16,
    pub place: usize,
}

// For each group its first item, where one is noted.
pub type Firsts = [Option<Noted>; ITEMS];

// The first item of a group, with its number.
#[derive(Clone, Copy)]
pub struct First {
    pub item: Item,
    pub number: u16,
}

// An item noted under a group, unless an earlier one is.
#[tactic(auto, unfolding(crate::specs::Firsts::noted_under))]
fn note_under(group: u16, item: Noted, firsts: &mut Firsts)
    ensures { firsts.new ≡ noted_under group item firsts.old }
{
    let row = group as usize;
    if row < ITEMS {
        if firsts[row].is_none() {
            firsts[row] = Some(item);
        }
    }
}

// An item noted under its group, by its row of the trail.
#[tactic(auto, unfolding(crate::specs::Firsts::noted))]
fn note(trail: &Trail, number: usize, place: usize, firsts: &mut Firsts)
    ensures { firsts.new ≡ noted trail.now number place firsts.old }
{
    if number < ITEMS {
        let item = Noted {
            number: number as u16,
            place,
        };
        note_under(trail[number][1], item, firsts);
    }
}

// The first items of all groups, for a record of so many items with this trail. They are put into a lent table, since one that is handed back would be
// copied.
pub fn first_items(
    recorded: &[u8],
    header: Header,
    trail: &Trail,
    items: usize,
    firsts: &mut Firsts,
)
    ensures { firsts.new ≡ first_items header recorded.now trail.now items }
{
    *firsts = [None; ITEMS];
    let mut place = FIRST_ITEM;
    for number in 0..items {
        match read_item(recorded, place, header) {
            Ok(read) => {
                note(trail, number, place, firsts);
                place = read.next;
            }
            Err(_) => return,
        }
    }
}

// A group's first item, read again.
#[tactic(auto, unfolding(crate::specs::Firsts::first_of))]
pub fn first_of(recorded: &[u8], header: Header, firsts: &Firsts, group: u16) -> Option<First>
    ensures { result ≡ first_of header recorded.now firsts.now group }
{
    let noted = firsts.get(group as usize).copied().flatten()?;
    let read = read_item(recorded, noted.place, header).ok()?;
    Some(First {
        item: read.value,
        number: noted.number,
    })
}
