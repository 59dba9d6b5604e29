// Labels, lent as two slices, levels and marks: the label of an item, whether there are enough of them, and the first one whose level is out of range.
//
// Nothing is required. Past the end of the levels and of the marks there is zero.
#![tactic(auto)]

ghost use Rattle.std.specs.Prelude.{◌≡◌, ℕ, ◌<◌, IfSome, get_or, unwrap_or};
ghost use Rattle.laws.specs.Tells.{Tells};
ghost use Rattle.laws.specs.First.{Sought};
ghost use Rattle.classes.specs.declared.Class.{Class};
ghost use Rattle.labels.specs.Labels.{labels_in, listed, LevelInRange, Room};

use classes::{Class, TOP_LEVEL};

// What has a label for each item.
pub trait Labelled {
    ghost labels: { Self → ℕ → Class };

    // The label of item i.
    fn label(&self, i: u64) -> Class
        ensures { result ≡ labels self.now i };
}

// The labels of a book's items, to be read. The two slices may have any two lengths.
#[derive(Clone, Copy, Debug, PartialEq, Eq)]
pub struct Labels<'a> {
    pub levels: &'a [u64],
    pub marks: &'a [u64],
}

impl<'a> Labels<'a> {
    // The label of item i, and the lowest class past the end of the labels.
    pub fn label_at(self, i: u64) -> Class
        ensures { result ≡ labels_in self.entry.levels.now self.entry.marks.now i }
    {
        Class::new(value_at(self.levels, i), value_at(self.marks, i))
    }

    // Whether there is a label for each of n items.
    pub fn has_room(self, n: usize) -> bool
        ensures { Tells (Room n self.entry.levels.now self.entry.marks.now) result }
    {
        n <= self.levels.len() && n <= self.marks.len()
    }

    // The first of n levels that is over 15, if there is one.
    pub fn first_bad(self, n: usize) -> Option<usize>
        ensures sought { Sought (LevelInRange self.entry.levels.now) n (unwrap_or result n) }
        ensures within { IfSome result (λ i. i < n) }
    {
        (0..n).find(|i| TOP_LEVEL < value_at(self.levels, *i as u64))
    }
}

impl<'a> Labelled for Labels<'a> {
    ghost labels = { λ l. labels_in l.levels.now l.marks.now };

    fn label(&self, i: u64) -> Class {
        self.label_at(i)
    }
}

// Classes in an array, the lowest past its end.
impl<const N: usize> Labelled for [Class; N] {
    ghost labels = { listed };

    fn label(&self, i: u64) -> Class {
        self.get(i as usize).copied().unwrap_or(Class::LOWEST)
    }
}

fn value_at(values: &[u64], i: u64) -> u64
    ensures { result ≡ get_or values.now i 0 }
{
    values.get(i as usize).copied().unwrap_or(0)
}
