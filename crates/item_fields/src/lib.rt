// The fields of an item. A field is there only where its map bit stands: else it is 0 and takes no byte.
#![tactic(auto, unfolding(model::specs::Bytes::judged))]

ghost use Rattle.std.specs.Prelude.{◌≡◌, true, false};
ghost use Rattle.model.specs.Bytes.{found};
ghost use Rattle.model.specs.Records.{high_byte};
ghost use Rattle.item_fields.specs.Optional.{rank_field, number_field, low_field, transition_field, cell_field, given_field};

use fields::{below, read_byte, read_word, within};
use model::refusals::{RECORD_LENGTH, RECORD_RANGE};
use model::{Found, Read, Refusal};

// A field that is there only where its map bit stands. Else `absent` stands in for it, and no byte is read.
fn optional<T: Copy, F: FnOnce() -> Read<T>>(
    present: bool,
    absent: T,
    at: usize,
    read: F,
) -> Read<T>
    requires { F.pre read }
    ensures there { present ≡ true → F.post read result }
    ensures left_out { present ≡ false → result ≡ found absent at }
{
    if present {
        read()
    } else {
        Ok(Found {
            value: absent,
            next: at,
        })
    }
}

// A rank, from 1 to `ranks`.
pub fn read_rank(bytes: &[u8], at: usize, present: bool, ranks: u16) -> Read<u16>
    ensures { result ≡ rank_field present ranks bytes.now at }
{
    optional(present, 0, at, || {
        within(
            read_byte(bytes, at, RECORD_LENGTH),
            at,
            1,
            ranks,
            RECORD_RANGE,
        )
    })
}

// A queue, below `limit`.
pub fn read_number(bytes: &[u8], at: usize, present: bool, limit: u16) -> Read<u16>
    ensures { result ≡ number_field present limit bytes.now at }
{
    optional(present, 0, at, || {
        below(read_byte(bytes, at, RECORD_LENGTH), at, limit, RECORD_RANGE)
    })
}

// A transition's low byte: below `transitions` where it is the whole number. With a high byte to come it is not judged alone.
#[tactic(auto, unfolding(model::specs::Records::low_byte, model::specs::Records::field, model::specs::Bytes::judged))]
pub fn read_low_byte(
    bytes: &[u8],
    at: usize,
    present: bool,
    high: bool,
    transitions: u16,
) -> Read<u16>
    ensures { result ≡ low_field present high transitions bytes.now at }
{
    optional(present, 0, at, || {
        let low = read_byte(bytes, at, RECORD_LENGTH);
        if high {
            low
        } else {
            below(low, at, transitions, RECORD_RANGE)
        }
    })
}

// A transition, whose low byte is known: where its high byte is there, the number that both make.

pub fn read_transition(
    bytes: &[u8],
    at: usize,
    present: bool,
    low: u16,
    transitions: u16,
) -> Read<u16>
    ensures { result ≡ transition_field present transitions low bytes.now at }
{
    optional(
        present,
        low,
        at,
        || read_high_byte(bytes, at, low, transitions),
    )
}

// The number that a high byte makes of the low one. The high byte is not 0, and the number has to be below `transitions`.
#[tactic(auto, unfolding(model::specs::Records::high_byte, model::specs::Records::field, model::specs::Bytes::judged))]
fn read_high_byte(bytes: &[u8], at: usize, low: u16, transitions: u16) -> Read<u16>
    ensures { result ≡ high_byte transitions low bytes.now at }
{
    let high = read_byte(bytes, at, RECORD_LENGTH)?;
    match u16::try_from(u32::from(high.value) * 256 + u32::from(low)) {
        Ok(value) if high.value > 0 && value < transitions => Ok(Found {
            value,
            next: high.next,
        }),
        _ => Err(Refusal {
            number: RECORD_RANGE,
            place: at,
        }),
    }
}

// A cell, of two bytes and below `cells`.
pub fn read_cell(bytes: &[u8], at: usize, present: bool, cells: u16) -> Read<u16>
    ensures { result ≡ cell_field present cells bytes.now at }
{
    optional(present, 0, at, || {
        below(read_word(bytes, at, RECORD_LENGTH), at, cells, RECORD_RANGE)
    })
}

// A value of two bytes, or none.
#[tactic(auto, unfolding(model::specs::Records::given_value))]
pub fn read_given(bytes: &[u8], at: usize, present: bool) -> Read<Option<u16>>
    ensures { result ≡ given_field present bytes.now at }
{
    optional(present, None, at, || {
        let word = read_word(bytes, at, RECORD_LENGTH)?;
        Ok(Found {
            value: Some(word.value),
            next: word.next,
        })
    })
}
