// The header: "N, A, R, Q, S, T, one byte each"; and document 02, #107: "a count byte of 255 in the header says that a two-byte count follows".
ghost use Rattle.std.specs.Prelude.{◌≡◌};
ghost use Rattle.model.specs.Limits.{max_transitions};
ghost use Rattle.model.specs.Programs.{header_number, transition_count, read_header};

use fields::{read_byte, read_word, within};
use model::refusals::{PROGRAM_LENGTH, PROGRAM_RANGE};
use model::{
    CELLS, Found, Header, LONG_COUNT, QUEUES, RANKS, REGISTERS, Read, SHORT_TRANSITIONS, STATES,
    TRANSITIONS,
};

// What a two-byte count says at least.
const LONG_LEAST: u16 = SHORT_TRANSITIONS + 1;

// A header number, from 1 to what its range ends with.
#[tactic(auto, unfolding(model::specs::Programs::header_number, model::specs::Bytes::judged))]
fn header_number(bytes: &[u8], at: usize, most: u16) -> Read<u16>
    ensures { result ≡ header_number 1 most bytes.now at }
{
    within(
        read_byte(bytes, at, PROGRAM_LENGTH),
        at,
        1,
        most,
        PROGRAM_RANGE,
    )
}

// How many transitions follow: in one byte up to 128, and above that in two bytes behind a byte of 255.
#[tactic(auto, unfolding(model::specs::Programs::transition_count, model::specs::Bytes::judged))]
fn transition_count(bytes: &[u8], at: usize) -> Read<u16>
    ensures { result ≡ transition_count max_transitions bytes.now at }
{
    let count = read_byte(bytes, at, PROGRAM_LENGTH)?;
    if count.value == LONG_COUNT {
        within(
            read_word(bytes, count.next, PROGRAM_LENGTH),
            count.next,
            LONG_LEAST,
            TRANSITIONS as u16,
            PROGRAM_RANGE,
        )
    } else {
        within(Ok(count), at, 0, SHORT_TRANSITIONS, PROGRAM_RANGE)
    }
}

// The six numbers, each judged before the next is read.
#[tactic(auto, unfolding(model::specs::Programs::read_header_in))]
pub fn read_header(bytes: &[u8]) -> Read<Header>
    ensures { result ≡ read_header bytes.now 0 }
{
    let ranks = header_number(bytes, 0, RANKS as u16)?;
    let cells = header_number(bytes, ranks.next, CELLS as u16)?;
    let registers = header_number(bytes, cells.next, REGISTERS as u16)?;
    let queues = header_number(bytes, registers.next, QUEUES as u16)?;
    let states = header_number(bytes, queues.next, STATES as u16)?;
    let transitions = transition_count(bytes, states.next)?;
    Ok(Found {
        value: Header {
            ranks: ranks.value,
            cells: cells.value,
            registers: registers.value,
            queues: queues.value,
            states: states.value,
            transitions: transitions.value,
        },
        next: transitions.next,
    })
}
