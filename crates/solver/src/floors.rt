// Floors: which parts of which floors the labels leave unmet.
ghost use Rattle.labels.specs.Labels.{listed};
ghost use Rattle.solver.specs.InnerSteps.{Misses, Lacks, Unheld, meant_at};

use super::Working;
use classes::Class;
use rules::{FLOOR, Head, left_join, rule_at};

// The parts in which x does not cover y: level 1 if the level is short, and the marks that x lacks.
fn missing(x: Class, y: Class) -> Class
    ensures { Misses x y result }
{
    Class::new(u64::from(x.level < y.level), y.marks & !x.marks)
}

// The parts in which rule r is a floor and is not met.
#[tactic(auto, using(crate::proofs::Lacking::lacks_floor, crate::proofs::Lacking::lacks_nothing))]
fn lacking(rules: &[u64], r: usize, labels: &Working) -> Class
    ensures { Lacks (meant_at rules.now r) labels.now result }
{
    let rule = rule_at(rules, r);
    match rule.kind {
        FLOOR => missing(left_join(rule, labels), rule.class),
        _ => Class::LOWEST,
    }
}

// The parts in which some floor is not met.
#[tactic(auto, using(crate::proofs::Lacking::lacks_none, crate::proofs::Lacking::lacks_more, crate::proofs::Lacking::lacks_all))]
pub(crate) fn unheld(rules: &[u64], head: Head, labels: &Working) -> Class
    ensures { Unheld head rules.now labels.now result }
{
    let mut all = Class::LOWEST;
    for r in 0..head.rules {
        all = all.join(lacking(rules, r, labels));
    }
    all
}
