// Values that a map of up to 64 bits marks, read by its bits, lowest first: bit i stands for entry i of a list of values. What a slip's counts and a
// start's readings have in common.
#![tactic(auto)]

pub mod maps;
pub mod reader;

use model::CELLS;

// A value for each bit that a map may have: as many as a rank has cells at most.
pub type Values = [u16; CELLS];
