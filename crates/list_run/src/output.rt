// What the program says, and the exit statuses.
ghost use Rattle.std.specs.Prelude.{◌≤◌, ◌≡◌};
ghost use Rattle.list_run.specs.Statuses.{status_of, exit_status, not_written};

use arrayvec::ArrayString;
use model::{Answer, Verdict};
use std::fmt::Write;
use std::io;

// How the program is used; the same with what it is; and its version, which is that of the library's header.
const USAGE: &str = "usage: list_run [--help | --version]";

pub const HELP: [u8; 423] = *b"usage: list_run [--help | --version]

Lists the order or the ring of the recorded run in the folder where it is
started, from the files run.prg (program), run.rec (record) and, if it is
there, run.sta (start: what the cells hold before the run begins).

Exit status: 0 for an order, 1 for a ring, 2 for a refusal, and 3 where
nothing was listed. The page list_run(1) has the lines of a listing and the
numbers of refusals.
";

pub const VERSION: [u8; 15] = *b"list_run 0.5.0\n";

// The exit statuses: of the three answers, of help and version, and where there is no listing.
const ORDER: u8 = 0;

const RING: u8 = 1;

const REFUSED: u8 = 2;

const TOLD: u8 = 0;

const NO_LISTING: u8 = 3;

// The exit status of an answer whose listing was written.
pub fn status_of(answer: Answer) -> u8
    ensures { result ≡ status_of answer }
{
    match answer {
        Ok(Verdict::Order(_)) => ORDER,
        Ok(Verdict::Ring(_)) => RING,
        Err(_) => REFUSED,
    }
}

// The exit status of a text with this status, by whether it was written.
pub fn exit_status(written: bool, status: u8) -> u8
    ensures { result ≡ exit_status written status }
{
    if written { status } else { NO_LISTING }
}

// Room for the text of an error, of which std gives at most 256 bytes, and its number.
const REASON: usize = 512;

// The C library's text of an error, behind which std writes the error's number.
fn reason(text: &str) -> &str {
    match text.rsplit_once(" (os error ") {
        Some((reason, _)) => reason,
        None => text,
    }
}

// Says on standard error why something failed, and of which file, if it was one.
pub fn complain<R: Eprint>(rt: &R, name: Option<&str>, error: &io::Error) {
    let mut text = ArrayString::<REASON>::new();
    let _ = write!(text, "{error}");
    let reason = reason(text.as_str());
    let _ = match name {
        Some(name) => eprintln!(rt; "list_run: {name}: {reason}"),
        None => eprintln!(rt; "list_run: {reason}"),
    };
}

// Writes all of a text to standard output, or says on standard error why it cannot. Answers whether it was written.
pub fn say<R: Print + Eprint>(rt: &R, text: &[u8]) -> bool {
    match rt.write_all(text) {
        Ok(()) => true,
        Err(error) => {
            complain(rt, None, &error);
            false
        }
    }
}

// Says a text that was asked for, and answers the exit status.
pub fn tell<R: Print + Eprint>(rt: &R, text: &[u8]) -> u8
    ensures { result ≤ not_written }
{
    exit_status(say(rt, text), TOLD)
}

// Says on standard error how the program is used, and answers the exit status. Nothing is listed.
pub fn refuse<R: Eprint>(rt: &R) -> u8
    ensures { result ≤ not_written }
{
    let _ = rt.eprintln(USAGE);
    NO_LISTING
}
