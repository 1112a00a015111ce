// Numbers in decimal.
ghost use Rattle.std.specs.Prelude.{◌≡◌, length};
ghost use Rattle.model.specs.Listings.{decimal};
ghost use Rattle.texts.specs.Texts.{Wrote};

// The character of 0; the others follow it.
const ZERO: u8 = 48;

// How many digits a number has.
pub fn decimal_length(number: usize) -> usize
    ensures { result ≡ length (decimal number) }
{
    let mut count = 1;
    let mut rest = number;
    while 10 <= rest {
        rest /= 10;
        count += 1;
    }
    count
}

// The digits of a number, the last one first, where they fit.
pub fn write_decimal(text: &mut [u8], number: usize) -> usize
    ensures { Wrote (decimal number) text.old text.new result }
{
    let count = decimal_length(number);
    if text.len() < count {
        return 0;
    }
    let mut left = number;
    for at in (1..count).rev() {
        text[at] = ZERO + (left % 10) as u8;
        left /= 10;
    }
    text[0] = ZERO + left as u8;
    count
}
