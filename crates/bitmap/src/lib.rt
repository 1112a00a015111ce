// A set of numbers below 1,024 as bits: bit n % 64 of word n / 64 stands for n. The last word is the summary: its bit w stands where word w is not 0.
// So the lowest number is found from two words.
#![tactic(auto)]

ghost use Rattle.std.specs.Prelude.{◌≡◌, IfSome};
ghost use Rattle.bitmap.specs.Bitmaps.{first_word, inserted, lowest_bit, IsMarked, Taken};

use model::ITEMS;

pub const WORDS: usize = 16;

pub const BITS: usize = 64;

// The words, and the summary last.
pub const SUMMARY: usize = WORDS;

pub const BITMAP: usize = WORDS + 1;

pub type Bitmap = [u64; BITMAP];

// The set with a number more. A number that no bit stands for changes nothing.
pub fn insert(bitmap: &mut Bitmap, number: u16)
    ensures { bitmap.new ≡ inserted bitmap.old number }
{
    let n = usize::from(number);
    if n < ITEMS {
        bitmap[n / BITS] |= 1 << (n % BITS);
        bitmap[SUMMARY] |= 1 << (n / BITS);
    }
}

// The place of a word's lowest bit, 64 of a word with none.
fn lowest_bit(word: u64) -> usize
    ensures { result ≡ lowest_bit word }
{
    word.trailing_zeros() as usize
}

// The first word that the summary marks, if it is not 0.
fn first_word(bitmap: &Bitmap) -> Option<usize>
    ensures is { result ≡ first_word bitmap.now }
    ensures marks { IfSome result (IsMarked bitmap.now) }
{
    let word = lowest_bit(bitmap[SUMMARY]);
    if word < WORDS && bitmap[word] != 0 {
        Some(word)
    } else {
        None
    }
}

// Takes the lowest number out of the set, if there is one. A word that becomes 0 leaves the summary.
pub fn take_lowest(bitmap: &mut Bitmap) -> Option<u16>
    ensures { Taken bitmap.old bitmap.new result }
{
    let word = first_word(bitmap)?;
    let bits = bitmap[word];
    let rest = bits & (bits - 1);
    bitmap[word] = rest;
    if rest == 0 {
        bitmap[SUMMARY] &= bitmap[SUMMARY] - 1;
    }
    Some((word * BITS + lowest_bit(bits)) as u16)
}
