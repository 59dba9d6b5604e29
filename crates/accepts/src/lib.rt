// Which rules, and which tables of rules, are accepted: the tests of a rule by value and of a flat lent table.
//
// Nothing here refuses. A test answers no.
#![tactic(auto)]

ghost use Rattle.std.specs.Prelude.{◌≤◌, ◌<◌};
ghost use Rattle.laws.specs.Tells.{Tells};
ghost use Rattle.refusals.specs.Sizes.{most_left};
ghost use Rattle.rules.specs.Table.{rule_at};
ghost use Rattle.accepts.specs.Accepted.{PlaceAccepted, LeftAccepted, RuleAccepted, Standing, TableAccepted};

use classes::{Class, TOP_LEVEL};
use refusals::{MOST_ITEMS, MOST_LEFT, MOST_RULES};
use rules::{Head, Rule, RuleKind, WORDS, rule_at};

// Whether place k of the left side of a rule is right in a book of n items.
fn place_ok(rule: Rule, n: u64, k: usize) -> bool
    requires { (k < most_left) × (rule.count ≤ most_left) }
    ensures { Tells (PlaceAccepted n rule k) result }
{
    let item = rule.left[k];
    if rule.count <= k as u64 {
        return item == 0;
    }
    let next = k + 1;
    item < n && (rule.count <= next as u64 || item < rule.left[next])
}

// Whether the left side of a rule is right in a book of n items.
fn left_ok(rule: Rule, n: u64) -> bool
    ensures { Tells (LeftAccepted n rule) result }
{
    1 <= rule.count
        && rule.count <= MOST_LEFT as u64
        && (0..MOST_LEFT).all(|k| place_ok(rule, n, k))
}

// Whether a rule is accepted in a book of n items.
pub fn rule_ok(rule: Rule, n: u64) -> bool
    ensures { Tells (RuleAccepted n rule) result }
{
    left_ok(rule, n)
        && rule.class.level <= TOP_LEVEL
        && match rule.kind() {
            Some(RuleKind::Cap) => rule.count == 1 && rule.right == 0,
            Some(RuleKind::Floor) => rule.right == 0,
            Some(RuleKind::Follow) => rule.right < n && rule.class == Class::LOWEST,
            None => false,
        }
}

// Whether rule r of a table is accepted under this head, and not out of order.
fn standing(rules: &[u64], head: Head, r: usize) -> bool
    requires { r < head.rules }
    ensures { Tells (Standing head (rule_at rules.now) r) result }
{
    let rule = rule_at(rules, r);
    let next = r + 1;
    rule_ok(rule, head.items as u64)
        && (head.rules <= next || rule.kind <= rule_at(rules, next).kind)
}

// Whether a table is accepted under this head.
pub fn rules_ok(rules: &[u64], head: Head) -> bool
    ensures { Tells (TableAccepted head rules.now) result }
{
    head.items <= MOST_ITEMS
        && head.rules <= MOST_RULES
        && head.rules * WORDS <= rules.len()
        && (0..head.rules).all(|r| standing(rules, head, r))
}
