// The class: a level and a set of marks, with covering, join and common part.
//
// A class is a struct by value. Marks are the bits of a word, so that all 64 are handled at once by masks. Nothing here
// refuses: a level over 15 is taken as the number it is.
#![tactic(auto)]

ghost use Rattle.std.specs.Prelude.{◌≡◌};
ghost use Rattle.laws.specs.Tells.{Tells};
ghost use Rattle.classes.specs.Bits.{LowestOne};
ghost use Rattle.classes.specs.Class.{Covers, HasMark, joined, common_of, lowest, highest, class_of};

// The highest level.
pub const TOP_LEVEL: u64 = 15;

#[derive(Clone, Copy, Debug, PartialEq, Eq)]
pub struct Class {
    pub level: u64,
    pub marks: u64,
}

impl Class {
    // The class that every class covers, 0/0000000000000000.
    pub const LOWEST: Class = Class { level: 0, marks: 0 };

    // The class that covers every class, 15/ffffffffffffffff.
    pub const HIGHEST: Class = Class {
        level: TOP_LEVEL,
        marks: 0xffff_ffff_ffff_ffff,
    };

    // The class of a level and a set of marks, mark k being the bit worth 2^k.
    pub fn new(level: u64, marks: u64) -> Class
        ensures { result ≡ class_of level marks }
    {
        Class { level, marks }
    }

    // Whether this class covers the other: its level is at least the other's, and it has every mark of the other.
    pub fn covers(self, other: Class) -> bool
        ensures { Tells (Covers self other) result }
    {
        other.level <= self.level && other.marks & !self.marks == 0
    }

    // The greater level, and every mark that either class has.
    pub fn join(self, other: Class) -> Class
        ensures { result ≡ joined self other }
    {
        Class {
            level: u64::max(self.level, other.level),
            marks: self.marks | other.marks,
        }
    }

    // The smaller level, and every mark that both classes have.
    pub fn common(self, other: Class) -> Class
        ensures { result ≡ common_of self other }
    {
        Class {
            level: u64::min(self.level, other.level),
            marks: self.marks & other.marks,
        }
    }

    // Whether this class has mark k. No class has a mark over 63.
    #[tactic(auto, using(crate::proofs::Marks::none_over_63, crate::proofs::Marks::shift_tells))]
    pub fn has_mark(self, k: u64) -> bool
        ensures { Tells (HasMark self k) result }
    {
        k < 64 && (self.marks >> k) % 2 == 1
    }
}

// The number of the lowest set bit of a word of marks, and 64 where no bit is set, as its promise `LowestOne` says.
pub fn lowest_mark(word: u64) -> u64
    ensures { LowestOne 64 word result }
{
    u64::trailing_zeros(word) as u64
}

// The two constants are the lowest and the highest class of the definitions.
fn lowest_class() -> Class
    ensures { result ≡ lowest }
{
    Class::LOWEST
}

fn highest_class() -> Class
    ensures { result ≡ highest }
{
    Class::HIGHEST
}
