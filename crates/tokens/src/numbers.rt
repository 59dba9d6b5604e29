// The value of digits, of base 10 or 16.
ghost use Rattle.std.specs.Prelude.{◌≡◌, take, drop};
ghost use Rattle.tokens.specs.Numbers.{digit_value, value_of};
ghost use Rattle.tokens.specs.InnerDigits.{Digits};

use super::LETTER_0;
use scans::{DIGIT_0, DIGIT_9, rest};

// What a digit 0-9 or a-f is worth.
#[tactic(auto, unfolding(crate::specs::Numbers::digit_value))]
fn digit_value(b: u8) -> u64
    ensures { result ≡ digit_value b }
{
    let zero = if b <= DIGIT_9 {
        u64::from(DIGIT_0)
    } else {
        LETTER_0
    };
    u64::from(b).saturating_sub(zero)
}

// The value of len digits at a place.
pub(crate) fn value(base: u64, s: &[u8], at: usize, len: usize) -> u64
    requires { Digits base (drop at s.now) len }
    ensures { result ≡ value_of base (take len (drop at s.now)) }
{
    let mut v = 0;
    for b in &rest(s, at)[..len] {
        v = v * base + digit_value(*b);
    }
    v
}
