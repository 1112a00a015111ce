// Fields read at a place of a byte string: the number and the place after it, or the refusal. Every function equals its definition, on every byte
// string.
#![tactic(auto)]

ghost use Rattle.std.specs.Prelude.{◌≡◌, ltb};
ghost use Rattle.model.specs.Choice.{between, bit};
ghost use Rattle.model.specs.Bytes.{byte, word};
ghost use Rattle.fields.specs.Fields.{judged_field};

use model::{Found, Read, Refusal};

// The byte at a place. Where the bytes end before it, the refusal has the number `early` and is placed at their length.
fn byte_at(bytes: &[u8], at: usize, early: u8) -> Read<u8>
    ensures { result ≡ byte early bytes.now at }
{
    match bytes.get(at) {
        Some(&value) => Ok(Found {
            value,
            next: at + 1,
        }),
        None => Err(Refusal {
            number: early,
            place: bytes.len(),
        }),
    }
}

// The same, as a number of two bytes.
pub fn read_byte(bytes: &[u8], at: usize, early: u8) -> Read<u16>
    ensures { result ≡ byte early bytes.now at }
{
    let byte = byte_at(bytes, at, early)?;
    Ok(Found {
        value: u16::from(byte.value),
        next: byte.next,
    })
}

// The two bytes at a place: "Two-byte numbers are big-endian."
#[tactic(auto, unfolding(model::specs::Bytes::word))]
pub fn read_word(bytes: &[u8], at: usize, early: u8) -> Read<u16>
    ensures { result ≡ word early bytes.now at }
{
    let high = byte_at(bytes, at, early)?;
    let low = byte_at(bytes, high.next, early)?;
    Ok(Found {
        value: u16::from_be_bytes([high.value, low.value]),
        next: low.next,
    })
}

// A field that has to be below a limit. Its fault is placed at its first byte.
pub fn below(read: Read<u16>, at: usize, limit: u16, number: u8) -> Read<u16>
    ensures { result ≡ judged_field (λ v. ltb v limit) number at read }
{
    let found = read?;
    if found.value < limit {
        Ok(found)
    } else {
        Err(Refusal { number, place: at })
    }
}

// A field that has to be within a range, both ends included.
pub fn within(read: Read<u16>, at: usize, low: u16, high: u16, number: u8) -> Read<u16>
    ensures { result ≡ judged_field (between low high) number at read }
{
    let found = read?;
    if low <= found.value && found.value <= high {
        Ok(found)
    } else {
        Err(Refusal { number, place: at })
    }
}

// "Bit 0 is the lowest": whether a bit of a map stands.
pub fn bit(map: u16, index: u16) -> bool
    ensures { result ≡ bit index map }
{
    if index < 16 {
        (map >> index) % 2 == 1
    } else {
        false
    }
}
