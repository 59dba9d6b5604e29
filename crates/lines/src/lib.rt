// One line of a rulebook: its key, and its value taken apart.
//
// Every function takes any place. A line that has not one of the six forms, its LF included, is None. A text and a place stay two parameters,
// as in `scans`.
#![tactic(auto)]

pub mod left;
pub mod value;

ghost use Rattle.std.specs.Prelude.{◌≡◌, drop};
ghost use Rattle.lines.specs.Lines.{line_at};

use keys::{Key, KeyToken, read_key};
use scans::{LF, byte_at};
use value::{Value, read_value};

// A line: its key, the length of the key's text, and its value. The LF stands behind the value.
#[derive(Clone, Copy, Debug, PartialEq, Eq)]
pub struct Line {
    pub key: Key,
    pub from: usize,
    pub value: Value,
}

// The line at a place, with its LF. None where it is not one of the six forms, or no LF stands behind it.
#[tactic(auto, using(crate::proofs::Told::key_ends, crate::proofs::Told::value_ends))]
pub fn read_line(s: &[u8], at: usize) -> Option<Line>
    ensures { result ≡ line_at (drop at s.now) }
{
    let KeyToken { key, len: from } = read_key(s, at)?;
    let place = at + from;
    let value = read_value(key, s, place)?;
    (byte_at(s, place + value.len) == LF).then_some(Line { key, from, value })
}
