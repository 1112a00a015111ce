// What the program's arguments ask for.
ghost use Rattle.list_run.specs.Arguments.{Asks};

use std::env::{Env, FillError};

// A listing, where there are no arguments; help or the version, each where it is asked for alone; or something else, which is no use of the program.
#[derive(Clone, Copy)]
pub enum Asked {
    Listing,
    Help,
    Version,
    Other,
}

// Room for the longest argument that is known, and a byte more.
const WORD: usize = 10;

// What is asked for by so many words, the program's own name among them, of which the second is this.
fn asked_by(words: usize, word: &[u8]) -> Asked
    ensures { Asks words word.now result }
{
    if words < 2 {
        return Asked::Listing;
    }
    if words > 2 {
        return Asked::Other;
    }
    if word == b"--help".as_slice() {
        return Asked::Help;
    }
    if word == b"--version".as_slice() {
        return Asked::Version;
    }
    Asked::Other
}

// The same of the program's own arguments, whatever bytes they have. No more than two are looked at: three words stand for any more. An argument that
// is too long for the room counts as an empty one, and neither is known.
pub fn arguments<R: Env>(rt: &R) -> Asked {
    let mut word = [0; WORD];
    let length = match rt.arg(1, &mut word) {
        Ok(length) => length,
        Err(FillError::TooLong) => 0,
        Err(FillError::NotPresent) => return asked_by(1, &[]),
    };
    let words = if has_argument(rt, 2) { 3 } else { 2 };
    asked_by(words, &word[..length])
}

// Whether the program was started with this argument.
fn has_argument<R: Env>(rt: &R, i: usize) -> bool {
    let mut none = [];
    match rt.arg(i, &mut none) {
        Ok(_) | Err(FillError::TooLong) => true,
        Err(FillError::NotPresent) => false,
    }
}
