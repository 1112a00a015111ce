// One item at a place: map and kind, then the fields whose bit stands, in bit order. So an item is read once, front to back, and its first fault is
// the answer.
ghost use Rattle.std.specs.Prelude.{◌≡◌};
ghost use Rattle.model.specs.Records.{item_fields, read_item};

use fields::{bit, read_byte};
use item_fields::{read_cell, read_given, read_low_byte, read_number, read_rank, read_transition};
use item_forms::item_form;
use model::refusals::{RECORD_FORM, RECORD_LENGTH};
use model::{Address, FormFault, Found, Header, Item, Kind, Read, Refusal};

// The item at a place of a record.
#[tactic(auto, unfolding(model::specs::Records::read_item_in, model::specs::ItemForms::judged_item_form))]
pub fn read_item(bytes: &[u8], at: usize, header: Header) -> Read<Item>
    ensures { result ≡ read_item header bytes.now at }
{
    let map = read_byte(bytes, at, RECORD_LENGTH)?;
    let number = read_byte(bytes, map.next, RECORD_LENGTH)?;
    let kind = item_form(map.value, number.value).map_err(|fault| Refusal {
        number: RECORD_FORM,
        place: match fault {
            FormFault::UnknownKind => map.next,
            FormFault::WrongMap => at,
        },
    })?;
    read_fields(bytes, number.next, header, map.value, kind)
}

// The fields behind map and kind. A value stands before a pop's remote rank, "as its last field", and before "the transition's high byte after all
// other fields"; no kind has both of these.
#[tactic(auto, unfolding(model::specs::Records::item_fields, model::specs::Records::field))]
fn read_fields(bytes: &[u8], at: usize, header: Header, map: u16, kind: Kind) -> Read<Item>
    ensures { result ≡ item_fields header map kind bytes.now at }
{
    let rank = read_rank(bytes, at, bit(map, 0), header.ranks)?;
    let low = read_low_byte(
        bytes,
        rank.next,
        bit(map, 1),
        bit(map, 7),
        header.transitions,
    )?;
    let queue = read_number(bytes, low.next, bit(map, 2), header.queues)?;
    let place_rank = read_rank(bytes, queue.next, bit(map, 3), header.ranks)?;
    let cell = read_cell(bytes, place_rank.next, bit(map, 4), header.cells)?;
    let given = read_given(bytes, cell.next, bit(map, 5))?;
    let remote = read_rank(bytes, given.next, bit(map, 6), header.ranks)?;
    let transition = read_transition(
        bytes,
        remote.next,
        bit(map, 7),
        low.value,
        header.transitions,
    )?;
    Ok(Found {
        value: Item {
            rank: rank.value,
            transition: transition.value,
            queue: queue.value,
            remote: remote.value,
            place: Address {
                rank: place_rank.value,
                cell: cell.value,
            },
            given: given.value,
            kind,
        },
        next: transition.next,
    })
}
