// Lines that are a word and any numbers, with a space before each.
ghost use Rattle.std.specs.Prelude.{◌∷◌, map};
ghost use Rattle.model.specs.Listings.{decimal, line, space};
ghost use Rattle.texts.specs.Texts.{Wrote};
ghost use Rattle.lines.specs.Lines.{LengthTold};

use texts::decimals::{decimal_length, write_decimal};
use texts::words::write_word;

// A space and a number, where they fit.
pub fn write_number(text: &mut [u8], number: usize) -> usize
    ensures { Wrote (space ∷ decimal number) text.old text.new result }
{
    if text.len() <= decimal_length(number) {
        return 0;
    }
    let at = write_word(text, b" ");
    at + write_decimal(&mut text[at..], number)
}

// The length of a line. The largest number stands for a longer one, which no memory can hold.
pub fn line_length(word: &[u8], numbers: &[usize]) -> usize
    ensures { LengthTold word.now numbers.now result }
{
    let mut count = word.len() + 1;
    for &number in numbers {
        count = count.saturating_add(1 + decimal_length(number));
    }
    count
}

// A line, where it fits.
pub fn write_line(text: &mut [u8], word: &[u8], numbers: &[usize]) -> usize
    ensures { Wrote (line word.now (map decimal numbers.now)) text.old text.new result }
{
    if text.len() < line_length(word, numbers) {
        return 0;
    }
    let mut at = write_word(text, word);
    for &number in numbers {
        at += write_number(&mut text[at..], number);
    }
    at + write_word(&mut text[at..], b"\n")
}
