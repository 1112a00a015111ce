// The listing program: it reads a run's program, start and record from their files, prints the listing, and answers the exit status. What it is asked
// by its arguments comes first.
#![tactic(auto)]

mod arguments;
mod files;
mod output;

ghost use Rattle.std.specs.Prelude.{suc, ◌≤◌, ◌≡◌, length, take};
ghost use Rattle.model.specs.Listings as listings;
ghost use Rattle.listing.specs.Told.{printing};
ghost use Rattle.sizes.specs.Sizes.{max_program_bytes, max_start_bytes, max_record_bytes, max_listing_bytes};
ghost use Rattle.list_run.specs.Runs.{Front, Runs};
ghost use Rattle.list_run.specs.Statuses.{not_written};

use crate::arguments::{Asked, arguments};
use crate::files::{PROGRAM, RECORD, START, read_front};
use crate::output::{HELP, VERSION, exit_status, refuse, say, status_of, tell};
use listing::listing;
use model::Listed;
use std::rt::{Env, Files};

// What is read of each file: one byte more than the longest readable program, start or record has. That byte is left over already, so what lies behind
// it changes nothing (`files_listed`).
const PROGRAM_FRONT: usize = 51209;

const START_FRONT: usize = 2177;

const RECORD_FRONT: usize = 10243;

// The longest listing that the limits of program, start and record allow.
const LISTING: usize = 44043;

// What a run of the program came to: all that the operating system answered, which is how many bytes it read of each file and whether the listing was
// written, and the exit status.
#[derive(Clone, Copy)]
pub struct Ran {
    pub program: usize,
    pub start: usize,
    pub recorded: usize,
    pub written: bool,
    pub status: u8,
}

// How many bytes a count of them means: all of them, where it counts more.
fn front(bytes: &[u8], count: usize) -> usize
    ensures { Front bytes.now count result }
{
    if bytes.len() < count {
        return bytes.len();
    }
    count
}

// Lists a run whose program, start and record are so many first bytes of what is lent.
pub fn list(
    program: &[u8],
    program_count: usize,
    start: &[u8],
    start_count: usize,
    recorded: &[u8],
    record_count: usize,
    text: &mut [u8],
) -> Listed
    ensures { printing result text.new ≡
        listings.listing (take program_count program.now) (take start_count start.now) (take record_count recorded.now)
        text.old }
{
    let program_end = front(program, program_count);
    let start_end = front(start, start_count);
    let record_end = front(recorded, record_count);
    listing(
        &program[..program_end],
        &start[..start_end],
        &recorded[..record_end],
        text,
    )
}

// Reads the three files into the fronts of lent bytes, lists the run into `text`, and prints it. The listing and the status are those of the bytes that
// are there then, as many of them as it answers.
pub fn run<R: Files + Print + Eprint>(
    rt: &R,
    program: &mut [u8],
    start: &mut [u8],
    recorded: &mut [u8],
    text: &mut [u8],
) -> Ran
    ensures { Runs program.new start.new recorded.new text.old text.new result }
{
    let program_count = read_front(rt, PROGRAM, true, program);
    let start_count = read_front(rt, START, false, start);
    let record_count = read_front(rt, RECORD, true, recorded);
    let listed = list(
        program,
        program_count,
        start,
        start_count,
        recorded,
        record_count,
        text,
    );
    let length = listed.length;
    let answer = listed.answer;
    let written = say(rt, &text[..length]);
    let status = exit_status(written, status_of(answer));
    Ran {
        program: program_count,
        start: start_count,
        recorded: record_count,
        written,
        status,
    }
}

// Room for the front of each file, and for the listing.
fn program_room() -> [u8; PROGRAM_FRONT]
    ensures { suc max_program_bytes ≡ length result }
{
    [0; PROGRAM_FRONT]
}

fn start_room() -> [u8; START_FRONT]
    ensures { suc max_start_bytes ≡ length result }
{
    [0; START_FRONT]
}

fn record_room() -> [u8; RECORD_FRONT]
    ensures { suc max_record_bytes ≡ length result }
{
    [0; RECORD_FRONT]
}

fn listing_room() -> [u8; LISTING]
    ensures { max_listing_bytes ≡ length result }
{
    [0; LISTING]
}

// Lists the run of the folder where the program is started, and answers the exit status.
fn list_files<R: Files + Print + Eprint>(rt: &R) -> u8
    ensures { result ≤ not_written }
{
    let mut program = program_room();
    let mut start = start_room();
    let mut recorded = record_room();
    let mut text = listing_room();
    let ran = run(rt, &mut program, &mut start, &mut recorded, &mut text);
    ran.status
}

// The whole program: its exit status is what this returns.
pub fn lellmusu_list_run<R: Env + Files + Print + Eprint>(rt: &R) -> u8
    ensures { result ≤ not_written }
{
    match arguments(rt) {
        Asked::Listing => list_files(rt),
        Asked::Help => tell(rt, &HELP),
        Asked::Version => tell(rt, &VERSION),
        Asked::Other => refuse(rt),
    }
}
