// Checking rules that are lent as a list of records.
//
// The walk over the list is thin: each rule is passed by value to `next`, which keeps what is known of the rules so far in a struct.
ghost use Rattle.laws.specs.Tells.{Tells};
ghost use Rattle.checker.specs.Answer.{said_checked};
ghost use Rattle.checker.specs.Checking.{CheckSays};
ghost use Rattle.checker.specs.List.{list_at, ListAccepted};
ghost use Rattle.checker.specs.InnerWalking.{Sizes, Count, Starts, Stands, UnmetOn, GoesOn, Concludes};

use super::{judged, met};
use labels::Labels;
use refusals::{Fault, MOST_ITEMS, MOST_RULES, Refusal};
use rules::{Head, Rule};

// What is known of the rules so far: whether they are accepted in this order, the kind of the last one, and the first one that is not met, if
// there is one. The kind stays a number: a record's may be any, and `rule_ok` answers no to an unknown one. The flag stays: no other field depends on it.
#[derive(Clone, Copy, Debug, PartialEq, Eq)]
pub(crate) struct Seen {
    pub good: bool,
    pub kind: u64,
    pub unmet: Option<usize>,
}

// As `check`, of rules that are lent as records: BadTable also where the list is shorter than the head says.
pub fn check_list(rules: &[Rule], head: Head, labels: Labels) -> Result<Option<usize>, Refusal>
    ensures { CheckSays (ListAccepted head rules.now) head (list_at rules.now) labels.entry.levels.now labels.entry.marks.now (said_checked result) }
{
    let len = rules.len();
    let count = listed(len, head);
    let mut seen = nothing();
    for i in 0..count {
        seen = next(seen, rules[i], i, head, labels);
    }
    answer(seen, len, head, labels)
}

// As `check_list`, of rules that are passed by value.
pub fn check_array(
    rules: [Rule; MOST_RULES],
    head: Head,
    labels: Labels,
) -> Result<Option<usize>, Refusal>
    ensures { CheckSays (ListAccepted head rules) head (list_at rules) labels.entry.levels.now labels.entry.marks.now (said_checked result) }
{
    check_list(&rules, head, labels)
}

// Whether a list of this length can hold the rules of a book with this head, and the head is not too large.
fn sizes_ok(len: usize, head: Head) -> bool
    ensures { Tells (Sizes len head) result }
{
    head.items <= MOST_ITEMS && head.rules <= MOST_RULES && head.rules <= len
}

// How many rules are looked at: none where the sizes are wrong.
fn listed(len: usize, head: Head) -> usize
    ensures { Count len head result }
{
    if sizes_ok(len, head) { head.rules } else { 0 }
}

// What is known before the first rule.
fn nothing() -> Seen
    ensures { Starts result }
{
    Seen {
        good: true,
        kind: 0,
        unmet: None,
    }
}

// What is known after rule i.
fn next(seen: Seen, rule: Rule, i: usize, head: Head, labels: Labels) -> Seen
    ensures { GoesOn seen rule i head labels.entry.levels.now labels.entry.marks.now result }
{
    Seen {
        good: stands(seen, rule, head.items as u64),
        kind: rule.kind,
        unmet: unmet_after(seen.unmet, rule, i, labels),
    }
}

// Whether the rules so far are accepted and this one may come behind them, in a book of n items.
fn stands(seen: Seen, rule: Rule, n: u64) -> bool
    ensures { Tells (Stands seen rule n) result }
{
    seen.good && seen.kind <= rule.kind && accepts::rule_ok(rule, n)
}

// The first rule up to rule i that is not met, given the first before it.
fn unmet_after(unmet: Option<usize>, rule: Rule, i: usize, labels: Labels) -> Option<usize>
    ensures { UnmetOn unmet rule i labels.entry.levels.now labels.entry.marks.now result }
{
    match unmet {
        None if !met(rule, labels) => Some(i),
        _ => unmet,
    }
}

// What is answered once the rules are looked at.
fn answer(seen: Seen, len: usize, head: Head, labels: Labels) -> Result<Option<usize>, Refusal>
    ensures { Concludes seen len head labels.entry.levels.now labels.entry.marks.now (said_checked result) }
{
    if !sizes_ok(len, head) || !seen.good {
        return Err(Fault::BadTable.at(0));
    }
    judged(seen.unmet, head, labels)
}
