// Reading a transition of a program, with the values of its expressions in an environment: one text that judges and evaluates. It equals its
// definition in `model`, on every byte string.
#![tactic(auto)]

pub mod transition;
mod values;
