// The text of a listing, line by line into lent bytes. What does not fit is counted all the same, so that the length is known before anything is
// written.
#![tactic(auto)]

mod cells;
mod groups;
mod line;

ghost use Rattle.std.specs.Prelude.{◌≡◌};
ghost use Rattle.layout.specs.Laid.{laid, lay_out};
ghost use Rattle.layout.specs.Lines.{groups_told, text_lines};

use crate::line::{Line, Page};
use first_items::Firsts;
use graph::Groups;
use model::{Cells, Header, Verdict};

// How many groups an order or a ring has.
fn groups_told(verdict: Verdict) -> usize
    ensures { result ≡ groups_told verdict }
{
    match verdict {
        Verdict::Order(count) | Verdict::Ring(count) => count,
    }
}

// What the lines of a listing tell: the verdict and its groups, the record by which a group's first item is read, and the last cells.
#[derive(Clone, Copy)]
pub struct Contents<'a> {
    pub verdict: Verdict,
    pub groups: &'a Groups,
    pub recorded: &'a [u8],
    pub header: Header,
    pub firsts: &'a Firsts,
    pub cells: &'a Cells,
}

impl Contents<'_> {
    // The line of an order or a ring, a line for each of its groups, and a line for each cell that is not 0. Answers how many bytes they
    // have; they are all written if the text has as many.
    pub fn write_text(&self, text: &mut [u8]) -> usize
        ensures { laid text.new result ≡
            lay_out (text_lines self.now.verdict self.now.groups.now self.now.recorded.now self.now.header self.now.firsts.now self.now.cells.now)
            (laid text.old 0) }
    {
        let mut page = Page { text, at: 0 };
        page.put(Line::Verdict(self.verdict));
        self.write_groups(&mut page);
        self.write_cells(&mut page);
        page.at
    }
}
