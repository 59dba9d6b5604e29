// The routines that a call may name, by their numbers, and what each answers. tests/calls/README.md has the numbers.
#![tactic(auto)]

pub mod answer;
mod ends;
pub mod routine;
