// Settling: labels are lowered until every cap and every follow is met. What is left is the greatest labelling below the
// labels that it starts from, in every part by itself.
ghost use Rattle.std.specs.Prelude.{◌≡◌, ◌<◌};
ghost use Rattle.refusals.specs.Sizes.{most_items};
ghost use Rattle.solver.specs.InnerSteps.{Named, Usable, LowersItem, PushesRule, Sweeps, Settles, meant_at, sweep_turn};

use super::Working;
use super::floors::unheld;
use classes::Class;
use rules::{CAP, FLOOR, Head, left_join, rule_at};

// Lowers item i to the common part of its label and a bound. Answers whether that changed anything.
fn lower(labels: &mut Working, i: usize, bound: Class) -> bool
    requires { i < most_items }
    ensures { LowersItem i bound labels.old labels.new result }
{
    // By its fields: of a class that is read whole it would not be known that its marks are a word.
    let old = Class::new(labels[i].level, labels[i].marks);
    if bound.covers(old) {
        return false;
    }
    labels[i] = old.common(bound);
    true
}

// Lowers the item that rule r bounds from above to what the rule allows. Answers whether that changed anything.
fn push(rules: &[u64], r: usize, labels: &mut Working) -> bool
    requires { Named (meant_at rules.now r) }
    ensures { PushesRule (meant_at rules.now r) labels.old labels.new result }
{
    let rule = rule_at(rules, r);
    match rule.kind {
        CAP => lower(labels, rule.left[0] as usize, rule.class),
        FLOOR => false,
        _ => {
            let join = left_join(rule, labels);
            lower(labels, rule.right as usize, join)
        }
    }
}

// The rule of the k-th turn: from the first rule on, or back from the last.
#[tactic(auto, using(crate::proofs::Sweep::turn_back))]
fn turn(back: bool, m: usize, k: usize) -> usize
    requires { k < m }
    ensures { result ≡ sweep_turn back m k }
{
    if back { m - 1 - k } else { k }
}

// Pushes every rule once. Answers whether that changed anything. It is inlined so that each direction has a loop of its own.
#[inline(always)]
fn sweep(rules: &[u64], head: Head, back: bool, labels: &mut Working) -> bool
    requires { Usable head rules.now }
    ensures { Sweeps head rules.now labels.old labels.new result }
{
    let mut changed = false;
    for k in 0..head.rules {
        changed |= push(rules, turn(back, head.rules, k), labels);
    }
    changed
}

// Lowers labels until every cap and every follow is met, and answers the parts in which some floor is then not met. Sweeps go
// forward and back in turn, so that a chain of follows in either order needs no sweep for each link. The loop stays: how many sweeps
// there are is known only once one changes nothing.
#[tactic(auto, using(crate::proofs::Sweep::settling_none, crate::proofs::Sweep::settling_less))]
pub(crate) fn settle(rules: &[u64], head: Head, labels: &mut Working) -> Class
    requires { Usable head rules.now }
    ensures { Settles head rules.now labels.old labels.new result }
{
    while sweep(rules, head, false, labels) && sweep(rules, head, true, labels) {}
    unheld(rules, head, labels)
}
