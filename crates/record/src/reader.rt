// The whole record: the item count, then so many items, and nothing after them. Nothing is kept but the count, since an item can be read again at its
// place.
ghost use Rattle.std.specs.Prelude.{◌≡◌};
ghost use Rattle.record.specs.Places.{items_end, record_count};

use crate::item::read_item;
use fields::{read_word, within};
use model::refusals::{RECORD_LENGTH, RECORD_RANGE};
use model::{Header, ITEMS, Refusal};

// "a two-byte item count, 0..1,024"
const MAX_COUNT: u16 = ITEMS as u16;

// Where the first item of a record stands: behind the count.
pub const FIRST_ITEM: usize = 2;

// Judges the record front to back; nothing is decoded for later. A record that can be read has so many items, the first at `FIRST_ITEM`.
pub fn read_record(bytes: &[u8], header: Header) -> Result<usize, Refusal>
    ensures { result ≡ record_count header bytes.now }
{
    let word = read_word(bytes, 0, RECORD_LENGTH);
    let count = within(word, 0, 0, MAX_COUNT, RECORD_RANGE)?;
    let end = read_items(bytes, count.next, header, count.value)?;
    if end == bytes.len() {
        Ok(usize::from(count.value))
    } else {
        Err(Refusal {
            number: RECORD_LENGTH,
            place: end,
        })
    }
}

// Where so many items end, the first of which stands at a place.
fn read_items(bytes: &[u8], from: usize, header: Header, count: u16) -> Result<usize, Refusal>
    ensures { result ≡ items_end header count bytes.now from }
{
    let mut at = from;
    for _ in 0..count {
        at = read_item(bytes, at, header)?.next;
    }
    Ok(at)
}
