// What is printed: the text of a verdict, or a refusal's line.
ghost use Rattle.std.specs.Prelude.{◌≡◌, Err};
ghost use Rattle.model.specs.Listings.{printed_of};
ghost use Rattle.judging.specs.Told.{verdict_told};
ghost use Rattle.listing.specs.Told.{too_short, printing, printed_verdict};

use first_items::first_items;
use judging::judge;
use layout::Contents;
use lines::{answer_length, write_answer};
use model::refusals::MEMORY_TOO_SHORT;
use model::{Cells, ITEMS, Listed, Refusal, Trail};
use replay::Accepted;

// Where the lent bytes have no room for a text of this length: "15 with the bytes needed", and nothing is written.
fn too_short(length: usize) -> Listed
    ensures { result ≡ too_short length }
{
    Listed {
        answer: Err(Refusal {
            number: MEMORY_TOO_SHORT,
            place: length,
        }),
        length: 0,
    }
}

// "`refused` carries number and place, and nothing follows; it is written like any line"
pub fn print_refused(text: &mut [u8], refusal: Refusal) -> Listed
    ensures { printing result text.new ≡ printed_of text.old (Err refusal) }
{
    let answer = Err(refusal);
    let length = answer_length(answer);
    if text.len() < length {
        return too_short(length);
    }
    write_answer(text, answer);
    Listed { answer, length }
}

// A record that its replay accepted, and what the replay left: the trail, and the last cells.
#[derive(Clone, Copy)]
pub struct AcceptedRun<'a> {
    pub recorded: &'a [u8],
    pub accepted: Accepted,
    pub trail: &'a Trail,
    pub cells: &'a Cells,
}

impl AcceptedRun<'_> {
    // The listing of the run. The length is counted first, on no bytes.
    pub fn print(&self, text: &mut [u8]) -> Listed
        ensures { printing result text.new ≡
            printed_verdict text.old (verdict_told self.now.accepted.groups self.now.accepted.items self.now.trail.now)
            self.now.recorded.now self.now.accepted.header self.now.trail.now self.now.accepted.items self.now.cells.now }
    {
        let Accepted {
            header,
            items,
            groups,
        } = self.accepted;
        let judged = judge(self.trail, items, groups);
        let mut firsts = [None; ITEMS];
        first_items(self.recorded, header, self.trail, items, &mut firsts);
        let contents = Contents {
            verdict: judged.verdict,
            groups: &judged.groups,
            recorded: self.recorded,
            header,
            firsts: &firsts,
            cells: self.cells,
        };
        let mut none = [0u8; 0];
        let length = contents.write_text(&mut none);
        if text.len() < length {
            return too_short(length);
        }
        contents.write_text(text);
        let answer = judged.answer();
        Listed { answer, length }
    }
}
