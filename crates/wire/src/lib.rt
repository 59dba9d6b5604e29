// The words of a call, on standard input and standard output: what a call is made of, what its lent buffers hold, and printing. Each word is a line of sixteen
// hex digits.
#![tactic(auto)]

pub mod buffers;
pub mod elements;
pub mod input;
pub mod output;
