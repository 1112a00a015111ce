// Reading a program: its header, and where each transition starts. Every function equals its definition in `model`, on every byte string.
#![tactic(auto)]

pub mod header;
pub mod reader;
