// Fronts of files, read with a word on standard error about each that cannot be.
ghost use Rattle.std.specs.Prelude.{◌≤◌, length};

use crate::output::complain;
use std::rt::Files;
use std::{fs, io};

// The files of a run, in the folder where the program is started.
pub const PROGRAM: &str = "run.prg";

pub const START: &str = "run.sta";

pub const RECORD: &str = "run.rec";

// How much was read of a file, and why a read failed then, if one did.
#[derive(Drop)]
struct Read {
    count: usize,
    failed: Option<io::Error>,
}

// Fills the bytes from a file, as far as both go or until a read fails.
fn read_all<F: io::Read>(file: &mut F, bytes: &mut [u8]) -> Read
    ensures { result.count ≤ length bytes.new }
{
    let mut count = 0;
    while count < bytes.len() {
        match file.read(&mut bytes[count..]) {
            Ok(0) => {
                return Read {
                    count,
                    failed: None,
                };
            }
            Ok(more) => count += more,
            Err(error) => {
                return Read {
                    count,
                    failed: Some(error),
                };
            }
        }
    }
    Read {
        count,
        failed: None,
    }
}

// Whether a link stands where a file is named. If no file is found there, it is a link that leads nowhere.
fn is_link<R: Files>(rt: &R, name: &str) -> bool {
    match fs::symlink_metadata(rt, name) {
        Ok(found) => found.is_symlink(),
        Err(_) => false,
    }
}

// Fills the bytes from a file's front, as far as both go, and answers how many there were. A file that cannot be opened counts as empty, and one of
// which a read fails ends there. Either is told, but for a file that is not needed and not there.
pub fn read_front<R: Files + Eprint>(rt: &R, name: &str, needed: bool, bytes: &mut [u8]) -> usize
    ensures { result ≤ length bytes.new }
{
    let mut file = match fs::open(rt, name) {
        Ok(file) => file,
        Err(error) => {
            if needed || error.kind() != io::ErrorKind::NotFound || is_link(rt, name) {
                complain(rt, Some(name), &error);
            }
            return 0;
        }
    };
    let read = read_all(&mut file, bytes);
    if let Some(error) = read.failed {
        complain(rt, Some(name), &error);
    }
    read.count
}
