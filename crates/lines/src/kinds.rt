// The words of the kinds.
ghost use Rattle.std.specs.Prelude.{◌≡◌};
ghost use Rattle.model.specs.Listings.{kind_word};

use model::Kind;

// A kind's word.
pub fn kind_word(kind: Kind) -> &'static [u8]
    ensures { result.now ≡ kind_word kind }
{
    match kind {
        Kind::Load => b"load",
        Kind::Store => b"store",
        Kind::Assign => b"assign",
        Kind::Assume => b"assume",
        Kind::Read => b"read",
        Kind::Write => b"write",
        Kind::Popa => b"popa",
        Kind::Popb => b"popb",
        Kind::Bar => b"bar",
    }
}
