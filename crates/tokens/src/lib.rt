// The tokens at a place of a text: names, counts and classes, each with its length, or None.
//
// Every function takes any place. Past a text's end there is nothing, so that no token stands there. A text and a place stay
// two parameters, as in `scans`.
#![tactic(auto)]

mod numbers;

ghost use Rattle.std.specs.Prelude.{◌≡◌, ◌≤◌, drop};
ghost use Rattle.tokens.specs.Numbers.{count_digits};
ghost use Rattle.tokens.specs.Tokens.{name_at, leading_zero, decimal_at, count_at, class_at};

use classes::{Class, TOP_LEVEL};
use items::NAME_ROOM;
use numbers::value;
use scans::{DIGIT_0, Kind, SLASH, byte_at, run};

// The most digits of a count.
pub const COUNT_DIGITS: usize = 5;

// The most digits of a level.
const LEVEL_DIGITS: usize = 2;

// The hex digits of a class's marks.
pub const MARK_DIGITS: usize = 16;

// What stands behind the level of a class: the slash and the marks.
pub const BEHIND_LEVEL: usize = 1 + MARK_DIGITS;

// What the byte of a letter a-f is more than its worth, as `DIGIT_0` is for a digit 0-9: a is worth 10.
pub const LETTER_0: u64 = b'a' as u64 - 10;

// A number that stands in a text, and its length there.
#[derive(Clone, Copy, Debug, PartialEq, Eq)]
pub struct Number {
    pub value: u64,
    pub len: usize,
}

// A class that stands in a text, and its length there.
#[derive(Clone, Copy, Debug, PartialEq, Eq)]
pub struct ClassToken {
    pub class: Class,
    pub len: usize,
}

// The name at a place, by its length. None where the run of a-z, 0-9 and hyphen there is not of 1 to 16 bytes; else the length of the run.
#[tactic(auto, unfolding(crate::specs::Tokens::name_of_run))]
pub fn read_name(s: &[u8], at: usize) -> Option<usize>
    ensures { result ≡ name_at (drop at s.now) }
{
    let n = run(Kind::Name, s, at);
    (1..=NAME_ROOM).contains(&n).then_some(n)
}

// The count at a place. None where the run of digits there is not of 1 to 5, or has a leading zero; else the value and the length of the run.
pub fn read_count(s: &[u8], at: usize) -> Option<Number>
    ensures { result ≡ count_at (drop at s.now) }
{
    decimal(COUNT_DIGITS, s, at)
}

// The class at a place. None where there is no level 0 to 15 with no leading zero, no slash behind it, or no run of exactly 16 lower-case hex
// digits behind that; else the class and its length.
#[tactic(auto, using(crate::proofs::Answers::level_ends), unfolding(crate::specs::Tokens::class_after))]
pub fn read_class(s: &[u8], at: usize) -> Option<ClassToken>
    ensures { result ≡ class_at (drop at s.now) }
{
    let level = decimal(LEVEL_DIGITS, s, at)?;
    let slash = at + level.len;
    if TOP_LEVEL < level.value || byte_at(s, slash) != SLASH {
        return None;
    }
    let marks = slash + 1;
    if run(Kind::Hex, s, marks) != MARK_DIGITS {
        return None;
    }
    let class = Class::new(level.value, value(16, s, marks, MARK_DIGITS));
    let len = level.len + BEHIND_LEVEL;
    Some(ClassToken { class, len })
}

// The number at a place. None where the run of digits there is not of 1 to `most`, or has a leading zero.
#[tactic(auto, unfolding(crate::specs::Tokens::decimal_of_run))]
fn decimal(most: usize, s: &[u8], at: usize) -> Option<Number>
    requires { most ≤ count_digits }
    ensures { result ≡ decimal_at most (drop at s.now) }
{
    let n = run(Kind::Decimal, s, at);
    if n < 1 || most < n || leading_zero(s, at, n) {
        return None;
    }
    let value = value(10, s, at, n);
    Some(Number { value, len: n })
}

// Whether of n digits at a place, more than one, the first is 0.
#[tactic(auto, unfolding(crate::specs::Tokens::leading_zero))]
fn leading_zero(s: &[u8], at: usize, n: usize) -> bool
    ensures { result ≡ leading_zero (drop at s.now) n }
{
    1 < n && byte_at(s, at) == DIGIT_0
}
