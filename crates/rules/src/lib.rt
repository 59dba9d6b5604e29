// The rule: as a record by value, and in a flat lent table of words; and the head of a book.
//
// Nothing here refuses. A reader past the table's end finds zero, and what has no room is not put.
#![tactic(auto)]

ghost use Rattle.std.specs.Prelude.{◌≡◌, ◌<◌};
ghost use Rattle.meaning.specs.Rules.{join_over};
ghost use Rattle.meaning.specs.Classes.{classes};
ghost use Rattle.rules.specs.Record.{kind_of, left_of};
ghost use Rattle.rules.specs.Table.{rule_words, word_at, rule_at, WordsPut, RulePut};

use classes::Class;
use labels::Labelled;
use refusals::{MOST_LEFT, MOST_RULES};

// The kinds of a rule by their numbers, as a table's words and a record have them: either may hold any number, and `rules_ok` answers no to others.
pub const CAP: u64 = 0;

pub const FLOOR: u64 = 1;

pub const FOLLOW: u64 = 2;

// The kinds as cases.
#[derive(Clone, Copy, Debug, PartialEq, Eq)]
pub enum RuleKind {
    Cap,
    Floor,
    Follow,
}

// How many words a rule takes in a table.
pub const WORDS: usize = 13;

// The words of a table of the most rules.
pub const WHOLE_TABLE: usize = MOST_RULES * WORDS;

// The head of a book: how many items it has, and how many rules.
#[derive(Clone, Copy, Debug, PartialEq, Eq)]
pub struct Head {
    pub items: usize,
    pub rules: usize,
}

// One rule. A cap has its item as its one left name; a cap and a floor have a class and no right name, a follow has a right
// name and no class. What a rule does not use is zero.
#[derive(Clone, Copy, Debug, PartialEq, Eq)]
pub struct Rule {
    pub kind: u64,
    pub count: u64,
    pub left: [u64; MOST_LEFT],
    pub right: u64,
    pub class: Class,
}

impl Rule {
    // The kind that the rule's number names, if it names one.
    pub fn kind(self) -> Option<RuleKind>
        ensures { result ≡ kind_of self.kind }
    {
        match self.kind {
            CAP => Some(RuleKind::Cap),
            FLOOR => Some(RuleKind::Floor),
            FOLLOW => Some(RuleKind::Follow),
            _ => None,
        }
    }
}

// Word k of rule r of a table, and zero past the table's end. That r is below the table's length is asked first: the place is then known to be small, and a reader of a
// rule costs just the words that it uses.
#[tactic(auto, unfolding(crate::specs::Table::word_at))]
fn word(rules: &[u64], r: usize, k: usize) -> u64
    requires { k < rule_words }
    ensures { result ≡ word_at rules.now r k }
{
    if rules.len() <= r {
        return 0;
    }
    rules.get(r * WORDS + k).copied().unwrap_or(0)
}

// Rule r of a table. Its left names stand one by one: with `array::from_fn` the proof did not close that each call reads this table.
// It is inlined so that words that a caller does not use are not read.
#[inline(always)]
pub fn rule_at(rules: &[u64], r: usize) -> Rule
    ensures { result ≡ rule_at rules.now r }
{
    Rule {
        kind: word(rules, r, 0),
        count: word(rules, r, 1),
        left: [
            word(rules, r, 2),
            word(rules, r, 3),
            word(rules, r, 4),
            word(rules, r, 5),
            word(rules, r, 6),
            word(rules, r, 7),
            word(rules, r, 8),
            word(rules, r, 9),
        ],
        right: word(rules, r, 10),
        class: Class::new(word(rules, r, 11), word(rules, r, 12)),
    }
}

// The join of the left labels of a rule.
pub fn left_join<L: Labelled>(rule: Rule, labels: &L) -> Class
    ensures { result ≡ join_over classes (left_of rule) (L.labels labels.now) }
{
    let count = usize::min(rule.count as usize, MOST_LEFT);
    let mut join = Class::LOWEST;
    for item in &rule.left[..count] {
        join = join.join(labels.label(*item));
    }
    join
}

// Puts these words at a place of a table. No where the table has no room for all of them, and then nothing is written: a yes or no, since `WordsPut` has
// nothing else to tell.
pub fn put_words(words: &[u64], table: &mut [u64], at: usize) -> bool
    ensures { WordsPut words.now at table.old result table.new }
{
    if table.len() < at || table.len() - at < words.len() {
        return false;
    }
    table[at..at + words.len()].copy_from_slice(words);
    true
}

// Puts a rule as rule r of a table. No where the table has no room for it, and then nothing is written: a yes or no, as of `put_words`.
pub fn put_rule(rule: Rule, rules: &mut [u64], r: usize) -> bool
    ensures { RulePut rule r rules.old result rules.new }
{
    let left = rule.left;
    let words = [
        rule.kind,
        rule.count,
        left[0],
        left[1],
        left[2],
        left[3],
        left[4],
        left[5],
        left[6],
        left[7],
        rule.right,
        rule.class.level,
        rule.class.marks,
    ];
    put_words(&words, rules, r.saturating_mul(WORDS))
}
