// The six keys: their texts, which one stands at a place of a text, and which may come next; and the texts of the keys of lines that are only printed.
//
// Every function takes any place and any number. Past a text's end no key stands, and a number that is no row or no column of the table is
// answered no. A text and a place stay two parameters, as in `scans`.
#![tactic(auto)]

ghost use Rattle.std.specs.Prelude.{◌≡◌, drop};
ghost use Rattle.std.specs.List.{find};
ghost use Rattle.keys.specs.Keys.{key_text, every_key, starts_with, key_at, key_number, next_allowed};

use scans::rest;

// The text of each key, with its `=`.
pub const FORM_KEY: [u8; 5] = *b"form=";

pub const ITEM_KEY: [u8; 5] = *b"item=";

pub const CAP_KEY: [u8; 4] = *b"cap=";

pub const FLOOR_KEY: [u8; 6] = *b"floor=";

pub const FOLLOW_KEY: [u8; 7] = *b"follow=";

pub const END_KEY: [u8; 4] = *b"end=";

// The keys of lines that are only printed: a label, a refusal's number and its place.
pub const LABEL_KEY: [u8; 6] = *b"label=";

pub const REFUSED_KEY: [u8; 8] = *b"refused=";

pub const AT_KEY: [u8; 3] = *b"at=";

// How many keys there are, which is also the number of the rows of the table of what may come next.
const KEYS: usize = 6;

// The keys, in their order.
#[derive(Clone, Copy, Debug, PartialEq, Eq)]
pub enum Key {
    Form,
    Item,
    Cap,
    Floor,
    Follow,
    End,
}

impl Key {
    // All keys, in their order.
    const ALL: [Key; KEYS] = [
        Key::Form,
        Key::Item,
        Key::Cap,
        Key::Floor,
        Key::Follow,
        Key::End,
    ];

    // The key's text.
    pub fn text(self) -> &'static [u8]
        ensures { result.now ≡ key_text self }
    {
        match self {
            Key::Form => &FORM_KEY,
            Key::Item => &ITEM_KEY,
            Key::Cap => &CAP_KEY,
            Key::Floor => &FLOOR_KEY,
            Key::Follow => &FOLLOW_KEY,
            Key::End => &END_KEY,
        }
    }
}

// A key that stands in a text, and the length of its text there.
#[derive(Clone, Copy, Debug, PartialEq, Eq)]
pub struct KeyToken {
    pub key: Key,
    pub len: usize,
}

// Which key may come next: six rows, each named at its end, with a cell each for form, item, cap, floor, follow and end.
const NEXT: [[bool; KEYS]; KEYS] = [
    [true, false, false, false, false, false], // after start
    [false, true, true, true, true, true], // after form
    [false, true, true, true, true, true], // after item
    [false, false, true, true, true, true], // after cap
    [false, false, false, true, true, true], // after floor
    [false, false, false, false, true, true], // after follow
];

// The key at a place, with its `=`. None where none of the six stands there.
#[tactic(auto, using(crate::proofs::KeyTexts::key_by_find))]
pub fn read_key(s: &[u8], at: usize) -> Option<KeyToken>
    ensures { result ≡ key_at (drop at s.now) }
{
    let key = first_key(s, at)?;
    let len = key.text().len();
    Some(KeyToken { key, len })
}

// The first key whose text stands at a place.
fn first_key(s: &[u8], at: usize) -> Option<Key>
    ensures { result ≡ find (λ k. starts_with (key_text k) (drop at s.now)) every_key }
{
    Key::ALL
        .iter()
        .find(|key| starts_with(s, at, key.text()))
        .copied()
}

// A key's number, from 0 in the keys' order. One more than it is the number of the row for what may come after the key. It stays a function, which
// docs/PROMISES.md and the tests name.
pub fn key_number(key: Key) -> u64
    ensures { result ≡ key_number key }
{
    key as u64
}

// Whether a key may come next after the start, 0, or after the key with number `after` - 1. No to any other number.
// It takes numbers and no keys, since docs/PROMISES.md promises an answer for any of them (`next_allowed`).
#[tactic(auto, unfolding(crate::specs::Keys::next_allowed))]
pub fn may_follow(after: u64, key: u64) -> bool
    ensures { result ≡ next_allowed after key }
{
    NEXT.get(after as usize)
        .is_some_and(|row| row.get(key as usize).copied().unwrap_or(false))
}

// Whether these bytes stand at a place. Past the text's end only no bytes do.
#[tactic(auto, using(crate::proofs::KeyTexts::starts_library))]
fn starts_with(s: &[u8], at: usize, bytes: &[u8]) -> bool
    ensures { result ≡ starts_with bytes.now (drop at s.now) }
{
    rest(s, at).starts_with(bytes)
}
