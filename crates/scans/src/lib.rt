// The bytes of a text at a place: one byte, and the length of a run of bytes of one kind.
//
// Every function takes any place. Past a text's end there is nothing. A text and a place stay two parameters: the promises are of any place, also one
// past the end (docs/PROMISES.md, edges).
#![tactic(auto)]

ghost use Rattle.std.specs.Prelude.{◌≡◌, drop};
ghost use Rattle.scans.specs.Bytes.{byte_at, name_byte, kind_of, run_len};

// The bytes that the crates above name.
pub const LF: u8 = b'\n';

pub const CR: u8 = b'\r';

pub const QUOTE: u8 = b'"';

pub const PLUS: u8 = b'+';

pub const COMMA: u8 = b',';

pub const SLASH: u8 = b'/';

pub const DIGIT_0: u8 = b'0';

pub const DIGIT_1: u8 = b'1';

pub const DIGIT_9: u8 = b'9';

pub const COLON: u8 = b':';

// The kinds of bytes that runs are made of: a-z, 0-9 and hyphen; 0-9; 0-9 and a-f.
#[derive(Clone, Copy, Debug, PartialEq, Eq)]
pub enum Kind {
    Name,
    Decimal,
    Hex,
}

impl Kind {
    // Whether a byte is of this kind.
    #[tactic(auto, unfolding(crate::specs::Bytes::decimal_byte, crate::specs::Bytes::hex_byte))]
    fn has(self, b: u8) -> bool
        ensures { result ≡ kind_of self b }
    {
        match self {
            Kind::Name => is_name_byte(b),
            Kind::Decimal => b.is_ascii_digit(),
            Kind::Hex => b.is_ascii_digit() || matches!(b, b'a'..=b'f'),
        }
    }
}

// What is left of a text at a place, nothing past its end.
pub fn rest(s: &[u8], at: usize) -> &[u8]
    ensures { result.now ≡ drop at s.now }
{
    s.get(at..).unwrap_or(&[])
}

// The byte at a place, and 0 past the text's end.
pub fn byte_at(s: &[u8], at: usize) -> u8
    ensures { result ≡ byte_at (drop at s.now) }
{
    s.get(at).copied().unwrap_or(0)
}

// Whether a byte is one that names are made of: a-z, 0-9 and hyphen.
#[tactic(auto, unfolding(crate::specs::Bytes::name_byte))]
pub fn is_name_byte(b: u8) -> bool
    ensures { result ≡ name_byte b }
{
    b.is_ascii_lowercase() || b.is_ascii_digit() || b == b'-'
}

// How many bytes of a kind stand at a place, one after the other.
#[tactic(auto, using(crate::proofs::Counted::counted_none, crate::proofs::Counted::counted_more, crate::proofs::Counted::counted_stop, crate::proofs::Counted::counted_end))]
pub fn run(kind: Kind, s: &[u8], at: usize) -> usize
    ensures { result ≡ run_len (kind_of kind) (drop at s.now) }
{
    let text = rest(s, at);
    for n in 0..text.len() {
        if !kind.has(text[n]) {
            return n;
        }
    }
    text.len()
}
