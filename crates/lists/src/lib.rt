// Writers of results into lent lists: into lists of sixteen-bit numbers, and into bytes, two an entry, big-endian. Nothing is written where there is
// no room for all of it.
#![tactic(auto)]

ghost use Rattle.std.specs.Prelude.{◌≡◌, ℕ, ◌<◌, List, length, take, refl};
ghost use Rattle.std.proofs.Common.{rules};
ghost use Rattle.model.specs.Bytes.{word_bytes};
ghost use Rattle.model.specs.Refusals.{Ok};
ghost use Rattle.model.specs.Lending.{lend, answering};
ghost use Rattle.lists.specs.Written.{fits, cells_fit, itself, entries_written, cell_entries_written};

use model::refusals::MEMORY_TOO_SHORT;
use model::{CELLS, Cells, Filled, RANKS, Refusal};

// So many numbers are given, and a list with so many entries has room for them from a place on.
#[tactic(auto, unfolding(crate::specs::Written::fits))]
fn fits(entries: usize, at: usize, given: usize, count: usize) -> bool
    ensures { result ≡ fits entries at given count }
{
    count <= given && count <= entries && at <= entries - count
}

// What a lent list is made of: numbers, an entry each, or bytes, two an entry.
pub trait Element: Copy {
    // How many elements an entry takes.
    const WIDTH: usize;

    ghost WIDTH: { ℕ };

    ghost shown: { ℕ → List Self };

    // A number into the elements of one entry.
    fn put(entry: &mut [Self], number: u16)
        requires { length entry.old ≡ WIDTH }
        ensures { entry.new ≡ shown number };

    ghost some: { 0 < WIDTH };

    ghost wide: { (number : ℕ) → length (shown number) ≡ WIDTH };
}

impl Element for u16 {
    const WIDTH: usize = 1;

    ghost WIDTH = { 1 };

    ghost shown = { itself };

    ghost some = { Prim.search rules };

    ghost wide = { λ number. refl };

    fn put(entry: &mut [u16], number: u16) {
        entry[0] = number;
    }
}

// "Two-byte numbers are big-endian."
impl Element for u8 {
    const WIDTH: usize = 2;

    ghost WIDTH = { 2 };

    ghost shown = { word_bytes };

    ghost some = { Prim.search rules };

    ghost wide = { λ number. refl };

    fn put(entry: &mut [u8], number: u16) {
        let [high, low] = number.to_be_bytes();
        entry[0] = high;
        entry[1] = low;
    }
}

// The first `count` numbers, from the entry `at` on. An odd last byte is never touched.
pub fn write<T: Element>(list: &mut [T], at: usize, numbers: &[u16], count: usize)
    ensures { list.new ≡ entries_written T.WIDTH T.shown list.old at numbers.now count }
{
    let width = T::WIDTH;
    if fits(list.len() / width, at, numbers.len(), count) {
        for (i, &number) in numbers[..count].iter().enumerate() {
            let place = width * (at + i);
            T::put(&mut list[place..place + width], number);
        }
    }
}

// The first `count` numbers, or all where they are fewer, to the front of a list, and how many they are; or 15 with the entries that they need.
pub fn fill_list(list: &mut [u16], numbers: &[u16], count: usize) -> Filled
    ensures { answering result list.new ≡ lend list.old (Ok (take count numbers.now)) }
{
    let needed = count.min(numbers.len());
    if list.len() < needed {
        return Err(Refusal {
            number: MEMORY_TOO_SHORT,
            place: needed,
        });
    }
    write(list, 0, numbers, needed);
    Ok(needed)
}

// The cells have so many ranks and so many cells of each, and a list with so many entries has room for them.
#[tactic(auto, unfolding(crate::specs::Written::cells_fit))]
fn cells_fit(entries: usize, ranks: usize, width: usize) -> bool
    ensures { result ≡ cells_fit entries ranks width }
{
    ranks <= RANKS && width <= CELLS && ranks * width <= entries
}

// The first cells of the first ranks, "rank 1 first".
pub fn write_cells<T: Element>(list: &mut [T], cells: &Cells, ranks: u16, width: u16)
    ensures { list.new ≡ cell_entries_written T.WIDTH T.shown list.old cells.now ranks width }
{
    let rows = ranks as usize;
    let count = width as usize;
    if cells_fit(list.len() / T::WIDTH, rows, count) {
        for (row, numbers) in cells[..rows].iter().enumerate() {
            write(list, row * count, numbers, count);
        }
    }
}
