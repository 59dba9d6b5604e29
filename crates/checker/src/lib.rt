// Checking: whether labels meet one rule, and the first rule of a table or of a list that they do not meet.
//
// Nothing is written, and nothing is required.
#![tactic(auto)]

pub mod list;

ghost use Rattle.std.specs.Prelude.{◌<◌, IfSome, unwrap_or};
ghost use Rattle.laws.specs.Tells.{Tells};
ghost use Rattle.laws.specs.First.{Sought};
ghost use Rattle.meaning.specs.Rules.{Met};
ghost use Rattle.meaning.specs.Classes.{classes};
ghost use Rattle.labels.specs.Labels.{labels_in};
ghost use Rattle.rules.specs.Record.{meaning_of};
ghost use Rattle.rules.specs.Table.{rule_at};
ghost use Rattle.accepts.specs.Accepted.{TableAccepted};
ghost use Rattle.checker.specs.Answer.{said_checked};
ghost use Rattle.checker.specs.Checking.{RuleMet, CheckSays};
ghost use Rattle.checker.specs.InnerJudging.{Judges};

use labels::Labels;
use refusals::{Fault, Refusal};
use rules::{Head, Rule, RuleKind};

// BadTable at 0 where the table is not accepted under this head; NoRoom at 0 where there are fewer labels than items; BadLabel at the first of the
// items whose level is over 15; else the first rule in table order, from 0, that the labels do not meet, if there is one.
pub fn check(rules: &[u64], head: Head, labels: Labels) -> Result<Option<usize>, Refusal>
    ensures { CheckSays (TableAccepted head rules.now) head (rule_at rules.now) labels.entry.levels.now labels.entry.marks.now (said_checked result) }
{
    if !accepts::rules_ok(rules, head) {
        return Err(Fault::BadTable.at(0));
    }
    judged(first_unmet(rules, head.rules, labels), head, labels)
}

// What is answered of accepted rules, where the search for a rule that is not met told this.
pub(crate) fn judged(
    unmet: Option<usize>,
    head: Head,
    labels: Labels,
) -> Result<Option<usize>, Refusal>
    ensures { Judges unmet head labels.entry.levels.now labels.entry.marks.now (said_checked result) }
{
    if !labels.has_room(head.items) {
        return Err(Fault::NoRoom.at(0));
    }
    match labels.first_bad(head.items) {
        Some(bad) => Err(Fault::BadLabel.at(bad as u64)),
        None => Ok(unmet),
    }
}

// Whether the labels meet a rule. An item past the end of the labels has the lowest class. A kind that is none of the three stands for a follow.
pub(crate) fn met(rule: Rule, labels: Labels) -> bool
    ensures { Tells (Met classes (meaning_of rule) (labels_in labels.entry.levels.now labels.entry.marks.now)) result }
{
    match rule.kind() {
        Some(RuleKind::Cap) => rule.class.covers(labels.label_at(rule.left[0])),
        Some(RuleKind::Floor) => rules::left_join(rule, &labels).covers(rule.class),
        Some(RuleKind::Follow) | None => {
            rules::left_join(rule, &labels).covers(labels.label_at(rule.right))
        }
    }
}

// The first of the table's m rules that the labels do not meet, if there is one.
fn first_unmet(rules: &[u64], m: usize, labels: Labels) -> Option<usize>
    ensures sought { Sought (RuleMet (rule_at rules.now) labels.entry.levels.now labels.entry.marks.now) m (unwrap_or result m) }
    ensures within { IfSome result (λ r. r < m) }
{
    (0..m).find(|r| !rule_met(rules, *r, labels))
}

// Whether the labels meet rule r of a table.
fn rule_met(rules: &[u64], r: usize, labels: Labels) -> bool
    ensures { Tells (RuleMet (rule_at rules.now) labels.entry.levels.now labels.entry.marks.now r) result }
{
    met(rules::rule_at(rules, r), labels)
}
