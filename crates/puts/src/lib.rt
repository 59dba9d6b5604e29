// Tokens put at a place of a lent buffer. Where the buffer has no room for the whole of it, each function writes nothing and answers None; else it
// answers the place behind what it put. So where several are put one behind the other, `?` stops at the first that has no room.
//
// The buffer and the place stay two parameters: a caller lends the buffer anew for each put, and only the place goes on.
#![tactic(auto)]

ghost use Rattle.std.specs.Prelude.{◌≡◌, ◌+◌, ◌≤◌, ◌<◌, cond, leb, length, Some, None};
ghost use Rattle.keys.specs.Keys.{key_text};
ghost use Rattle.tokens.specs.Numbers.{digit, digits_of, decimal_len};
ghost use Rattle.tokens.specs.Tokens.{count_text, class_text};
ghost use Rattle.puts.specs.Writing.{Put};

use classes::Class;
use keys::Key;
use scans::{DIGIT_0, SLASH};
use tokens::{BEHIND_LEVEL, COUNT_DIGITS, LETTER_0};

// The bases of numbers.
const DECIMAL: u64 = 10;

const HEX: u64 = 16;

// Puts these bytes.
pub fn put(bytes: &[u8], out: &mut [u8], at: usize) -> Option<usize>
    ensures { Put out.old at bytes.now out.new result }
{
    let end = end_of(out.len(), at, bytes.len())?;
    out[at..end].copy_from_slice(bytes);
    Some(end)
}

// Puts a key with its `=`.
pub fn put_key(key: Key, out: &mut [u8], at: usize) -> Option<usize>
    ensures { Put out.old at (key_text key) out.new result }
{
    put(key.text(), out, at)
}

// Puts a count in decimal with no leading zero; of a number over 99,999 the last five digits.
pub fn put_count(n: u64, out: &mut [u8], at: usize) -> Option<usize>
    ensures { Put out.old at (count_text n) out.new result }
{
    let end = end_of(out.len(), at, decimal_len(n))?;
    put_digits(DECIMAL, n, &mut out[at..end]);
    Some(end)
}

// Puts a class: the level as a count is put, a slash, and the marks in sixteen lower-case hex digits.
pub fn put_class(class: Class, out: &mut [u8], at: usize) -> Option<usize>
    ensures { Put out.old at (class_text class) out.new result }
{
    let k = decimal_len(class.level);
    let end = end_of(out.len(), at, k + BEHIND_LEVEL)?;
    let slash = at + k;
    put_digits(DECIMAL, class.level, &mut out[at..slash]);
    out[slash] = SLASH;
    put_digits(HEX, class.marks, &mut out[slash + 1..end]);
    Some(end)
}

// Writes the lowest digits of n, highest first, as many as there is room for.
fn put_digits(base: u64, n: u64, digits: &mut [u8])
    requires least { 0 < base }
    requires most { base ≤ 16 }
    ensures { digits.new ≡ digits_of base (length digits.old) n }
{
    let mut v = n;
    for i in (0..digits.len()).rev() {
        digits[i] = digit_byte(v % base);
        v /= base;
    }
}

// The place behind n bytes at a place, where a buffer of `len` bytes has room for them.
fn end_of(len: usize, at: usize, n: usize) -> Option<usize>
    ensures { result ≡ cond (leb (at + n) len) (Some (at + n)) None }
{
    at.checked_add(n).filter(|end| *end <= len)
}

// The digit worth d.
#[tactic(auto, unfolding(tokens::specs::Numbers::digit))]
fn digit_byte(d: u64) -> u8
    requires { d < 16 }
    ensures { result ≡ digit d }
{
    if d < DECIMAL {
        DIGIT_0 + d as u8
    } else {
        (LETTER_0 + d) as u8
    }
}

// How many decimal digits a number has with no leading zero, at most those of a count. Not by `ilog10`: 0 has one digit, and a number over 99,999 five.
#[tactic(auto, unfolding(tokens::specs::Numbers::decimal_len))]
fn decimal_len(n: u64) -> usize
    ensures { result ≡ decimal_len n }
{
    match n {
        0..=9 => 1,
        10..=99 => 2,
        100..=999 => 3,
        1000..=9999 => 4,
        _ => COUNT_DIGITS,
    }
}
