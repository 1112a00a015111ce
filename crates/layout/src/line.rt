// One line of a listing, put into the rest of a text.
ghost use Rattle.std.specs.Prelude.{◌≡◌, [], ◌∷◌, ◌≤◌};
ghost use Rattle.texts.specs.Texts.{Wrote};
ghost use Rattle.layout.specs.Laid.{laid, LaysOut};
ghost use Rattle.layout.specs.Lines.{bytes_of, longest, farthest, Measures};

use lines::{answer_length, cell_length, group_length, write_answer, write_cell, write_group};
use model::{Kind, Verdict};

// A line by its fields, or no line.
#[derive(Clone, Copy)]
pub enum Line {
    Verdict(Verdict),
    Group {
        group: u16,
        kind: Kind,
        rank: u16,
        first: u16,
    },
    Cell {
        rank: u16,
        cell: u16,
        value: u16,
    },
    Nothing,
}

// How many bytes a line has.
fn length_of(line: Line) -> usize
    ensures { Measures line result }
{
    match line {
        Line::Verdict(verdict) => answer_length(Ok(verdict)),
        Line::Group {
            group,
            kind,
            rank,
            first,
        } => group_length(group, kind, rank, first),
        Line::Cell { rank, cell, value } => cell_length(rank as usize, cell as usize, value),
        Line::Nothing => 0,
    }
}

// A line at the front of a text, where it fits.
#[tactic(auto, unfolding(crate::specs::Lines::bytes_of, texts::specs::Texts::written, texts::specs::Texts::written_length, model::specs::Checks::fill))]
fn write_line(text: &mut [u8], line: Line) -> usize
    ensures { Wrote (bytes_of line) text.old text.new result }
{
    match line {
        Line::Verdict(verdict) => write_answer(text, Ok(verdict)),
        Line::Group {
            group,
            kind,
            rank,
            first,
        } => write_group(text, group, kind, rank, first),
        Line::Cell { rank, cell, value } => write_cell(text, rank as usize, cell as usize, value),
        Line::Nothing => 0,
    }
}

// A text, and where its next line goes. Whoever writes to a page leaves the same text in it, which is what its ghost name says.
#[derive(Drop)]
pub struct Page<'a> {
    pub text: &'a mut [u8],
    pub at: usize,
}

impl Page<'_> {
    // "each line is written into the rest of the lent bytes"
    pub fn put(&mut self, line: Line)
        requires { self.old.at ≤ farthest }
        ensures same { self.new.text.ghost_name ≡ self.old.text.ghost_name }
        ensures laid { LaysOut (bytes_of line ∷ []) longest (laid self.old.text.now self.old.at) (laid self.new.text.now self.new.at) }
    {
        let at = self.at;
        self.at = at + length_of(line);
        if at <= self.text.len() {
            write_line(&mut self.text[at..], line);
        }
    }
}
