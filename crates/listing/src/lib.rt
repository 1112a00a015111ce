// The listing of a run: the check's verdict, its groups and the last cells as text, or the refusal.
#![tactic(auto)]

mod printing;

ghost use Rattle.std.specs.Prelude.{◌≡◌};
ghost use Rattle.model.specs.Listings as listings;
ghost use Rattle.listing.specs.Told.{printing};

use crate::printing::{AcceptedRun, print_refused};
use model::{CELLS, ITEMS, Listed, RANKS, TOLD};
use replay::replay;

// Lists a record of a program from a start into the front of `text`. The text is written whole or not at all: where `text` is too short, the answer
// is 15 with the length that it would have, and nothing is written.
pub fn listing(program: &[u8], start: &[u8], recorded: &[u8], text: &mut [u8]) -> Listed
    ensures { printing result text.new ≡
        listings.listing program.now start.now recorded.now text.old }
{
    let mut cells = [[0; CELLS]; RANKS];
    let mut trail = [[0; TOLD]; ITEMS];
    match replay(program, start, recorded, &mut cells, &mut trail) {
        Err(refusal) => print_refused(text, refusal),
        Ok(accepted) => {
            let run = AcceptedRun {
                recorded,
                accepted,
                trail: &trail,
                cells: &cells,
            };
            run.print(text)
        }
    }
}
