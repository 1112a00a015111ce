// What an item is before program and machine come in: its row, its group and how far the replay is after it; and whether it agrees with its access.
// Every function equals its definition.
#![tactic(auto)]

pub mod access;
pub mod rows;
