// Check, slip, listing and start for a program in another language that links the static library.
#![tactic(auto)]

ghost use Rattle.std.specs.Prelude.{◌≡◌};
ghost use Rattle.model.specs.Slips as slips;
ghost use Rattle.model.specs.Starts as starts;
ghost use Rattle.model.specs.Listings as listings;
ghost use Rattle.lellmusu.specs.Reported.{number_of, value_of, Reported};
ghost use Rattle.lellmusu.specs.Told.{filled_number, filled_value, text_length, Tells, Prints};
ghost use Rattle.lellmusu.specs.Versions.{version};

use checker::check_bytes;
use listing::listing;
use model::refusals::MEMORY_TOO_SHORT;
use model::{Answer, Filled, Verdict};
use slips::{read_slip, write_slip};
use starts::{read_start_bytes, write_start_bytes};

// What the entry returns for an order and for a ring: no row of document 01's table has these numbers.
const ORDER: u8 = 0;

const RING: u8 = 255;

// What it returns where a slip or a start is written or read.
const FILLED: u8 = 0;

// The library's version, that of its header: 10,000 for each major number, 100 for each minor one.
const VERSION: u32 = 500;

// What an answer is, and the count of groups or the place, as numbers.
fn number_of(answer: Answer) -> u8
    ensures { result ≡ number_of answer }
{
    match answer {
        Ok(Verdict::Order(_)) => ORDER,
        Ok(Verdict::Ring(_)) => RING,
        Err(refusal) => refusal.number,
    }
}

fn value_of(answer: Answer) -> usize
    ensures { result ≡ value_of answer }
{
    match answer {
        Ok(Verdict::Order(count) | Verdict::Ring(count)) => count,
        Err(refusal) => refusal.place,
    }
}

// Checks a record of a program from a start as `check_bytes` does, with the answer in plain numbers: it returns 0 for an order, 255 for a ring, and else the
// refusal's number, and writes how many groups are listed, or the refusal's place.
#[unsafe(no_mangle)]
pub extern "C" fn lellmusu_check(
    program: &[u8],
    start: &[u8],
    recorded: &[u8],
    order: &mut [u8],
    cells: &mut [u8],
    value: &mut usize,
) -> u8
    ensures { Reported program.now start.now recorded.now order.old cells.old
        order.new cells.new value.new result }
{
    let answer = check_bytes(program, start, recorded, order, cells);
    *value = value_of(answer);
    number_of(answer)
}

// Tells what was filled in numbers: it returns 0 and writes how many entries, or the refusal's number and its place.
fn tell(filled: Filled, value: &mut usize) -> u8
    ensures returns { result ≡ filled_number filled }
    ensures counts { value.new ≡ filled_value filled }
{
    match filled {
        Ok(count) => {
            *value = count;
            FILLED
        }
        Err(refusal) => {
            *value = refusal.place;
            refusal.number
        }
    }
}

// Writes the slip of a run as `write_slip` does: it returns 0 and writes how many bytes the slip has, or the refusal's number and its place.
#[unsafe(no_mangle)]
pub extern "C" fn lellmusu_write_slip(
    program: &[u8],
    start: &[u8],
    recorded: &[u8],
    slip: &mut [u8],
    value: &mut usize,
) -> u8
    ensures { Tells (slips.write_slip program.now start.now recorded.now slip.old)
        slip.new value.new result }
{
    tell(write_slip(program, start, recorded, slip), value)
}

// Reads a slip of a program with so many ranks as `read_slip` does: it returns 0 and writes how many counts it filled, or the refusal's number and its
// place.
#[unsafe(no_mangle)]
pub extern "C" fn lellmusu_read_slip(
    ranks: u8,
    slip: &[u8],
    counts: &mut [u16],
    value: &mut usize,
) -> u8
    ensures { Tells (slips.read_slip ranks slip.now counts.old) counts.new value.new result }
{
    tell(read_slip(ranks as u16, slip, counts), value)
}

// Writes a start from a list of cells in bytes, as `write_start_bytes` does: it returns 0 and writes how many bytes the start has, or the refusal's
// number and its place.
#[unsafe(no_mangle)]
pub extern "C" fn lellmusu_write_start(
    program: &[u8],
    cells: &[u8],
    start: &mut [u8],
    value: &mut usize,
) -> u8
    ensures { Tells (starts.write_start_bytes program.now cells.now start.old)
        start.new value.new result }
{
    tell(write_start_bytes(program, cells, start), value)
}

// Reads a start into a list of cells in bytes, as `read_start_bytes` does: it returns 0 and writes how many entries it filled, or the refusal's number
// and its place.
#[unsafe(no_mangle)]
pub extern "C" fn lellmusu_read_start(
    program: &[u8],
    start: &[u8],
    cells: &mut [u8],
    value: &mut usize,
) -> u8
    ensures { Tells (starts.read_start_into_bytes program.now start.now cells.old)
        cells.new value.new result }
{
    tell(read_start_bytes(program, start, cells), value)
}

// How many bytes a listing has: those that were written or, where the text was too short, those that are needed.
fn text_length(answer: Answer, written: usize) -> usize
    ensures { result ≡ text_length answer written }
{
    match answer {
        Err(refusal) if refusal.number == MEMORY_TOO_SHORT => refusal.place,
        _ => written,
    }
}

// Writes the listing of a run as `listing` does: it returns the check's number, or 15 where the text is too short, and writes how many bytes the text
// has.
#[unsafe(no_mangle)]
pub extern "C" fn lellmusu_list(
    program: &[u8],
    start: &[u8],
    recorded: &[u8],
    text: &mut [u8],
    value: &mut usize,
) -> u8
    ensures { Prints (listings.listing program.now start.now recorded.now text.old)
        text.new value.new result }
{
    let listed = listing(program, start, recorded, text);
    let answer = listed.answer;
    *value = text_length(answer, listed.length);
    number_of(answer)
}

// The library's version, for a program that was compiled with a header of its own.
#[unsafe(no_mangle)]
pub extern "C" fn lellmusu_version() -> u32
    ensures { result ≡ version }
{
    VERSION
}
