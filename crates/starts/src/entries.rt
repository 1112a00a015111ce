// A list of bytes as the numbers that its entries are.
ghost use Rattle.std.specs.Prelude.{◌≡◌};
ghost use Rattle.starts.specs.Writing.{entries_in};

use model::{CELLS, RANKS};

// An entry for each cell of the largest machine.
pub const ENTRIES: usize = RANKS * CELLS;

pub type Entries = [u16; ENTRIES];

// The first entries, and 0 behind them. "Two-byte numbers are big-endian."
pub fn entries_of(bytes: &[u8]) -> Entries
    ensures { result ≡ entries_in bytes.now }
{
    let mut entries = [0; ENTRIES];
    for (i, pair) in bytes.chunks_exact(2).take(ENTRIES).enumerate() {
        entries[i] = u16::from_be_bytes([pair[0], pair[1]]);
    }
    entries
}
