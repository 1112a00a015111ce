// Reading a record, for a program that begins with given numbers: the whole record is judged front to back, and then an item is decoded at its place.
#![tactic(auto)]

pub mod item;
pub mod reader;
