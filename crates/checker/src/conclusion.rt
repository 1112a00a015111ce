// What is to be answered and written, for lists of so many entries, before anything is written.
ghost use Rattle.std.specs.Prelude.{◌≡◌};
ghost use Rattle.model.specs.Checks.{check_result};
ghost use Rattle.judging.specs.Told.{verdict_told};
ghost use Rattle.checker.specs.Concluded.{refused_with, judged_as, accepted_with, Concludes};

use graph::Groups;
use judging::judge;
use model::refusals::{MEMORY_TOO_SHORT, ORDER_TOO_SHORT};
use model::{Answer, Cells, Header, ITEMS, Refusal, TOLD, Trail};
use replay::replay;

// How many entries the lent lists have, for groups and for cells.
#[derive(Clone, Copy)]
pub struct Room {
    pub groups: usize,
    pub cells: usize,
}

// The answer; the groups that are listed, so many; and how many ranks' cells are listed, and how many of each rank.
#[derive(Clone, Copy)]
pub struct Concluded {
    pub answer: Answer,
    pub count: usize,
    pub groups: Groups,
    pub ranks: u16,
    pub width: u16,
}

// A refusal, with nothing to write.
fn refused(refusal: Refusal) -> Concluded
    ensures { result ≡ refused_with refusal }
{
    Concluded {
        answer: Err(refusal),
        count: 0,
        groups: [0; ITEMS],
        ranks: 0,
        width: 0,
    }
}

// What the arrows of an accepted record come to.
#[tactic(auto, using(crate::proofs::Concluding::concludes_verdict))]
fn verdict_on(trail: &Trail, items: usize, groups: u16, header: Header) -> Concluded
    ensures { result ≡ judged_as (verdict_told groups items trail.now) header.ranks header.cells }
{
    let judged = judge(trail, items, groups);
    let listed = judged.groups;
    Concluded {
        answer: judged.answer(),
        count: judged.count(),
        groups: listed,
        ranks: header.ranks,
        width: header.cells,
    }
}

// An accepted record: "then 14, then 15", and then what its arrows come to.
fn accepted(room: Room, header: Header, items: usize, groups: u16, trail: &Trail) -> Concluded
    ensures { result ≡ accepted_with room header groups (verdict_told groups items trail.now) }
{
    let count = groups as usize;
    let needed = header.ranks as usize * header.cells as usize;
    if room.groups < count {
        return refused(Refusal {
            number: ORDER_TOO_SHORT,
            place: count,
        });
    }
    if room.cells < needed {
        return refused(Refusal {
            number: MEMORY_TOO_SHORT,
            place: needed,
        });
    }
    verdict_on(trail, items, groups, header)
}

// The whole check but for the writing. Of an accepted record `cells` gets the last cells.
pub fn conclude(
    program: &[u8],
    start: &[u8],
    recorded: &[u8],
    room: Room,
    cells: &mut Cells,
) -> Concluded
    ensures { Concludes
        (check_result program.now start.now recorded.now room.groups room.cells)
        room cells.new result }
{
    let mut trail = [[0; TOLD]; ITEMS];
    match replay(program, start, recorded, cells, &mut trail) {
        Err(refusal) => refused(refusal),
        Ok(run) => accepted(room, run.header, run.items, run.groups, &trail),
    }
}
