// The refusals that docs/RULES.md numbers, each with its place, and the sizes past which a text or a book is refused.
#![tactic(auto)]

ghost use Rattle.std.specs.Prelude.{◌≡◌};
ghost use Rattle.refusals.specs.Numbers.{fault_number};
ghost use Rattle.refusals.specs.Said.{refusal_at};

// The most bytes of a text.
pub const MOST_TEXT: usize = 32768;

// The most items, the most rules and the most left names of a rule.
pub const MOST_ITEMS: usize = 256;

pub const MOST_RULES: usize = 1024;

pub const MOST_LEFT: usize = 8;

// What a refusal is for, with its number.
#[derive(Clone, Copy, Debug, PartialEq, Eq)]
pub enum Fault {
    TooLong = 1,
    Syntax = 2,
    Order = 3,
    TooMany = 4,
    NameTwice = 5,
    NoSuchItem = 6,
    LeftOrder = 7,
    EndCount = 8,
    NoLabelling = 9,
    BadTable = 10,
    NoRoom = 11,
    BadLabel = 12,
    CsvSyntax = 16,
    CsvHeader = 17,
}

impl Fault {
    // The refusal for this fault at a place.
    pub fn at(self, place: u64) -> Refusal
        ensures { result ≡ refusal_at self place }
    {
        Refusal { fault: self, place }
    }
}

// A refusal: what it is for, and its place: a line, a part, an item, a record, or 0.
#[derive(Clone, Copy, Debug, PartialEq, Eq)]
pub struct Refusal {
    pub fault: Fault,
    pub place: u64,
}

// The number of a fault. It stays a function, which docs/PROMISES.md and the tests name.
pub fn fault_number(fault: Fault) -> u64
    ensures { result ≡ fault_number fault }
{
    fault as u64
}
