// Lines of a word and numbers, and the lines of a listing, each written into the rest of lent bytes. A writer answers how many bytes it wrote: its whole
// line, or none where that does not fit, and then the bytes are untouched. The length of a line can be asked for before it is written.
#![tactic(auto)]

mod kinds;
pub mod numbered;

ghost use Rattle.std.specs.Prelude.{◌≡◌, length};
ghost use Rattle.texts.specs.Texts.{Wrote};
ghost use Rattle.lines.specs.Lines.{answer_line, cell_entry, group_entry};

use crate::kinds::kind_word;
use crate::numbered::{line_length, write_line, write_number};
use model::{Answer, Kind, Verdict};
use texts::decimals::decimal_length;
use texts::words::write_word;

// A listing's first line, by the check's answer: `order` or `ring` with the count, or `refused` with number and place.
#[tactic(auto, unfolding(crate::specs::Lines::answer_line, model::specs::Listings::refused_line))]
pub fn answer_length(answer: Answer) -> usize
    ensures { result ≡ length (answer_line answer) }
{
    match answer {
        Ok(verdict) => match verdict {
            Verdict::Order(count) => line_length(b"order", &[count]),
            Verdict::Ring(count) => line_length(b"ring", &[count]),
        },
        Err(refusal) => line_length(b"refused", &[refusal.number as usize, refusal.place]),
    }
}

#[tactic(auto, unfolding(crate::specs::Lines::answer_line, model::specs::Listings::refused_line))]
pub fn write_answer(text: &mut [u8], answer: Answer) -> usize
    ensures { Wrote (answer_line answer) text.old text.new result }
{
    match answer {
        Ok(verdict) => match verdict {
            Verdict::Order(count) => write_line(text, b"order", &[count]),
            Verdict::Ring(count) => write_line(text, b"ring", &[count]),
        },
        Err(refusal) => write_line(text, b"refused", &[refusal.number as usize, refusal.place]),
    }
}

// "`cell`, rank, cell, value"
pub fn cell_length(rank: usize, cell: usize, value: u16) -> usize
    ensures { result ≡ length (cell_entry rank cell value) }
{
    line_length(b"cell", &[rank, cell, value as usize])
}

pub fn write_cell(text: &mut [u8], rank: usize, cell: usize, value: u16) -> usize
    ensures { Wrote (cell_entry rank cell value) text.old text.new result }
{
    write_line(text, b"cell", &[rank, cell, value as usize])
}

// "`group`, number, kind word, rank (0 for a barrier), first item". The word, the spaces and the line feed are ten bytes.
pub fn group_length(group: u16, kind: Kind, rank: u16, first: u16) -> usize
    ensures { result ≡ length (group_entry group kind rank first) }
{
    let number = decimal_length(group as usize);
    let who = decimal_length(rank as usize);
    let place = decimal_length(first as usize);
    10 + number + kind_word(kind).len() + who + place
}

pub fn write_group(text: &mut [u8], group: u16, kind: Kind, rank: u16, first: u16) -> usize
    ensures { Wrote (group_entry group kind rank first) text.old text.new result }
{
    if text.len() < group_length(group, kind, rank, first) {
        return 0;
    }
    let mut at = write_word(text, b"group");
    at += write_number(&mut text[at..], group as usize);
    at += write_word(&mut text[at..], b" ");
    at + write_line(
        &mut text[at..],
        kind_word(kind),
        &[rank as usize, first as usize],
    )
}
