// Lowering: each item in turn gets the least class that still leaves a labelling. The level is tried from the lowest up, all
// marks with it, and each mark is judged by itself.
ghost use Rattle.std.specs.Prelude.{◌+◌};
ghost use Rattle.solver.specs.InnerSteps.{Usable};
ghost use Rattle.solver.specs.InnerLowers.{ChosenOne, Chosen, ItemUsable, TriesLevel, Lowers};

use super::Working;
use super::settle::settle;
use classes::{Class, TOP_LEVEL};
use rules::Head;

// A label with the marks of an old one where w has a bit.
fn choose(label: Class, old: Class, w: u64) -> Class
    ensures { ChosenOne w old label result }
{
    Class::new(label.level, (label.marks & !w) | (old.marks & w))
}

// Puts the old marks of each label back where w has a bit, and leaves the present ones elsewhere.
#[tactic(auto, using(crate::proofs::Choosing::chosen_none, crate::proofs::Choosing::chosen_more, crate::proofs::Choosing::chosen_all))]
fn put_back(old: &Working, w: u64, labels: &mut Working)
    ensures { Chosen w old.now labels.old labels.new }
{
    for (i, label) in labels.iter_mut().enumerate() {
        *label = choose(*label, old[i], w);
    }
}

// Tries level v at item i, and no marks. Answers yes where a labelling with that level is left: the labels are so lowered, and
// each mark of item i that can go is gone. Else it answers no, with the labels as they were.
#[tactic(auto, using(crate::proofs::Attempts::level_left, crate::proofs::Attempts::level_failed))]
fn try_level(rules: &[u64], head: Head, i: usize, v: u64, labels: &mut Working) -> bool
    requires { ItemUsable head rules.now i }
    ensures { TriesLevel head rules.now i v labels.old labels.new result }
{
    let old = *labels;
    labels[i] = Class::new(v, 0);
    let w = settle(rules, head, labels);
    if w.level == 0 {
        put_back(&old, w.marks, labels);
        return true;
    }
    *labels = old;
    false
}

// Lowers item i: its level to the least that leaves a labelling, and each of its marks that can go.
#[tactic(auto, using(crate::proofs::Lowering::level_start, crate::proofs::Lowering::level_more, crate::proofs::Lowering::level_found, crate::proofs::Lowering::level_past))]
fn lower_item(rules: &[u64], head: Head, i: usize, labels: &mut Working)
    requires { ItemUsable head rules.now i }
    ensures { Lowers head rules.now i (i + 1) labels.old labels.new }
{
    for v in 0..=TOP_LEVEL {
        if try_level(rules, head, i, v, labels) {
            return;
        }
    }
}

// Lowers every item in turn.
pub(crate) fn lower_all(rules: &[u64], head: Head, labels: &mut Working)
    requires { Usable head rules.now }
    ensures { Lowers head rules.now 0 head.items labels.old labels.new }
{
    for item in 0..head.items {
        lower_item(rules, head, item, labels);
    }
}
