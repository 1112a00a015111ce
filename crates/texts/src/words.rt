// Fixed words of a listing, copied to the front of a text.
ghost use Rattle.texts.specs.Texts.{Wrote};

// A word's bytes, where they fit.
pub fn write_word(text: &mut [u8], word: &[u8]) -> usize
    ensures { Wrote word.now text.old text.new result }
{
    if text.len() < word.len() {
        return 0;
    }
    for (at, &byte) in word.iter().enumerate() {
        text[at] = byte;
    }
    word.len()
}
