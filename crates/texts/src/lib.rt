// Words and numbers written to the front of lent bytes, where they fit. A writer answers how many bytes it wrote: all of its own, or none, and then
// the bytes are untouched.
#![tactic(auto)]

pub mod decimals;
pub mod words;
