// The bits of a map, in turn.
ghost use Rattle.std.specs.Iterator.{YieldsFirst, item_count};
ghost use Rattle.marked.specs.Maps.{bits_of};

// The bits that are left of a map, lowest first.
#[derive(Drop)]
pub struct Bits(pub u64);

impl Iterator for Bits {
    type Item = usize;

    ghost next_gives = { YieldsFirst (λ s. bits_of s.0) };

    ghost remaining = { item_count (λ s. bits_of s.0) };

    // Trailing zeros give the next one.
    fn next(&mut self) -> Option<usize> {
        if self.0 == 0 {
            return None;
        }
        let bit = self.0.trailing_zeros() as usize;
        self.0 &= self.0 - 1;
        Some(bit)
    }
}
