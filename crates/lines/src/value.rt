// The value of a line: what stands between its `=` and its LF.
ghost use Rattle.std.specs.Prelude.{◌≡◌, ◌+◌, ◌≤◌, length, drop};
ghost use Rattle.lines.specs.Values.{form_at, item_at, cap_at, floor_at, follow_at, end_at, value_at, colon_behind, with_class, with_right};

use super::left::{LeftSide, read_left};
use classes::Class;
use keys::Key;
use scans::{COLON, DIGIT_1, byte_at};
use tokens::{read_class, read_count, read_name};

// A value: how many left names it has, an item's own included, and their length with the plus signs between them; the length of the right name;
// the class; the count; and the length of the whole value. What a kind of line has not is zero.
#[derive(Clone, Copy, Debug, PartialEq, Eq)]
pub struct Value {
    pub names: usize,
    pub left: usize,
    pub right: usize,
    pub class: Class,
    pub count: u64,
    pub len: usize,
}

impl Value {
    // Nothing of what a value may have.
    const EMPTY: Value = Value {
        names: 0,
        left: 0,
        right: 0,
        class: Class::LOWEST,
        count: 0,
        len: 0,
    };
}

// The value of a key at a place.
pub(crate) fn read_value(key: Key, s: &[u8], at: usize) -> Option<Value>
    ensures { result ≡ value_at key (drop at s.now) }
{
    match key {
        Key::Form => form_value(s, at),
        Key::Item => item_value(s, at),
        Key::Cap => cap_value(s, at),
        Key::Floor => floor_value(s, at),
        Key::Follow => follow_value(s, at),
        Key::End => end_value(s, at),
    }
}

#[tactic(auto, unfolding(crate::specs::Values::form_at))]
fn form_value(s: &[u8], at: usize) -> Option<Value>
    ensures { result ≡ form_at (drop at s.now) }
{
    (byte_at(s, at) == DIGIT_1).then_some(Value {
        len: 1,
        ..Value::EMPTY
    })
}

fn item_value(s: &[u8], at: usize) -> Option<Value>
    ensures { result ≡ item_at (drop at s.now) }
{
    let n = read_name(s, at)?;
    Some(Value {
        names: 1,
        left: n,
        len: n,
        ..Value::EMPTY
    })
}

#[tactic(auto, using(crate::proofs::Told::name_ends))]
fn cap_value(s: &[u8], at: usize) -> Option<Value>
    ensures { result ≡ cap_at (drop at s.now) }
{
    let n = read_name(s, at)?;
    with_class(s, at, LeftSide { names: 1, len: n })
}

#[tactic(auto, using(crate::proofs::Told::left_ends))]
fn floor_value(s: &[u8], at: usize) -> Option<Value>
    ensures { result ≡ floor_at (drop at s.now) }
{
    let left = read_left(s, at)?;
    with_class(s, at, left)
}

#[tactic(auto, using(crate::proofs::Told::left_ends))]
fn follow_value(s: &[u8], at: usize) -> Option<Value>
    ensures { result ≡ follow_at (drop at s.now) }
{
    let left = read_left(s, at)?;
    with_right(s, at, left)
}

fn end_value(s: &[u8], at: usize) -> Option<Value>
    ensures { result ≡ end_at (drop at s.now) }
{
    let count = read_count(s, at)?;
    Some(Value {
        count: count.value,
        len: count.len,
        ..Value::EMPTY
    })
}

// The place behind the colon behind a left side at a place. None where no colon stands there.
fn behind_colon(s: &[u8], at: usize, left: LeftSide) -> Option<usize>
    requires { at + left.len ≤ length s.now }
    ensures { result ≡ colon_behind (at + left.len) s.now }
{
    let place = at + left.len;
    (byte_at(s, place) == COLON).then_some(place + 1)
}

// A left side at a place, a colon and a class.
#[tactic(auto, using(crate::proofs::Told::class_ends), unfolding(crate::specs::Values::with_class))]
fn with_class(s: &[u8], at: usize, left: LeftSide) -> Option<Value>
    requires { at + left.len ≤ length s.now }
    ensures { result ≡ with_class left.names left.len (drop at s.now) }
{
    let token = read_class(s, behind_colon(s, at, left)?)?;
    let len = left.len + 1 + token.len;
    Some(Value {
        names: left.names,
        left: left.len,
        class: token.class,
        len,
        ..Value::EMPTY
    })
}

// A left side at a place, a colon and a name.
#[tactic(auto, using(crate::proofs::Told::name_ends), unfolding(crate::specs::Values::with_right))]
fn with_right(s: &[u8], at: usize, left: LeftSide) -> Option<Value>
    requires { at + left.len ≤ length s.now }
    ensures { result ≡ with_right left.names left.len (drop at s.now) }
{
    let n = read_name(s, behind_colon(s, at, left)?)?;
    let len = left.len + 1 + n;
    Some(Value {
        names: left.names,
        left: left.len,
        right: n,
        len,
        ..Value::EMPTY
    })
}
