// One line of a rulebook, read into the tables.
ghost use Rattle.std.specs.Prelude.{◌≡◌, ◌+◌, ◌≤◌, drop};
ghost use Rattle.refusals.specs.Said.{refusal_at};
ghost use Rattle.refusals.specs.Sizes.{most_text};
ghost use Rattle.lines.specs.Lines.{line_len};
ghost use Rattle.reader.specs.Lines.{rule_kind, step};
ghost use Rattle.reader.specs.InnerLines.{state_of, turn_of, went_on, Ready, Counting, LineReady, ItemReady, RuleReady, ItemStepped, RuleStepped, EndStepped};
ghost use Rattle.reader.specs.InnerAdding.{NameReady, ItemAdded, NamesReady, RuleAdded};

use super::names::{Known, rises};
use items::{NAME_ROOM, find};
use keys::{Key, key_number, may_follow};
use lines::{Line, read_line};
use refusals::{Fault, MOST_ITEMS, MOST_LEFT, MOST_RULES, Refusal};
use rules::{Head, Rule, put_rule};

// How many lines have been read, which row of the key table is next, and how many items and rules there are.
// The row stays a number: `may_follow` promises an answer for every number, and `State` of specs/Lines.antt counts with it.
#[derive(Clone, Copy, Debug, PartialEq, Eq)]
pub(crate) struct Counts {
    pub lines: usize,
    pub after: u64,
    pub items: usize,
    pub rules: usize,
}

// What a line that is right gives: the counts after it and its length, or the head of the book that it ends.
#[derive(Clone, Copy, Debug, PartialEq, Eq)]
pub(crate) enum Next {
    Line(Counts, usize),
    End(Head),
}

// Reads the line at a place.
pub(crate) fn step(
    text: &[u8],
    at: usize,
    c: Counts,
    names: &mut [u8],
    words: &mut [u64],
) -> Result<Next, Refusal>
    requires { Ready text.now c names.old words.old }
    ensures { turn_of result names.new words.new ≡ step (state_of c names.old words.old) (drop at text.now) }
{
    if text.len() <= at {
        return Err(stopped(c, Fault::EndCount));
    }
    let Some(line) = read_line(text, at) else {
        return Err(stopped(c, Fault::Syntax));
    };
    let key = line.key;
    if !may_follow(c.after, key_number(key)) {
        return Err(stopped(c, Fault::Order));
    }
    match key {
        Key::Form => Ok(went(c, line, c.items, c.rules)),
        Key::Item => item_step(text, at, line, c, names),
        Key::Cap | Key::Floor | Key::Follow => rule_step(text, at, line, c, names, words),
        Key::End => end_step(text, at, line, c),
    }
}

// A fault at the line that is read.
fn stopped(c: Counts, fault: Fault) -> Refusal
    requires { c.lines ≤ most_text }
    ensures { result ≡ refusal_at fault (c.lines + 1) }
{
    fault.at(c.lines as u64 + 1)
}

// A line that was taken: the counts after it, with so many items and rules, and its length.
fn went(c: Counts, line: Line, items: usize, rules: usize) -> Next
    requires { Counting c line }
    ensures { result ≡ went_on c line items rules }
{
    let key = line.key;
    let next = Counts {
        lines: c.lines + 1,
        after: key_number(key) + 1,
        items,
        rules,
    };
    Next::Line(next, line_len(line))
}

// The length of a line, with its LF.
fn line_len(line: Line) -> usize
    requires { line_len line ≤ most_text }
    ensures { result ≡ line_len line }
{
    line.from + line.value.len + 1
}

// Adds the next item.
fn item_step(
    text: &[u8],
    at: usize,
    line: Line,
    c: Counts,
    names: &mut [u8],
) -> Result<Next, Refusal>
    requires { ItemReady text.now at line c names.old }
    ensures { ItemStepped c names.old (drop at text.now) line result names.new }
{
    let from = at + line.from;
    let end = from + line.value.left;
    match add_item(&text[from..end], names, c.items) {
        Ok(()) => Ok(went(c, line, c.items + 1, c.rules)),
        Err(fault) => Err(stopped(c, fault)),
    }
}

// Puts a name behind n items: 4 where there are 256, 5 where the name was given before.
fn add_item(name: &[u8], names: &mut [u8], n: usize) -> Result<(), Fault>
    requires { NameReady name.now names.old }
    ensures { ItemAdded names.old n name.now result names.new }
{
    if MOST_ITEMS <= n {
        return Err(Fault::TooMany);
    }
    let Ok(None) = find(names, n, name) else {
        return Err(Fault::NameTwice);
    };
    let at = n * NAME_ROOM;
    names[at..at + name.len()].copy_from_slice(name);
    Ok(())
}

// Adds the next rule.
fn rule_step(
    text: &[u8],
    at: usize,
    line: Line,
    c: Counts,
    names: &[u8],
    words: &mut [u64],
) -> Result<Next, Refusal>
    requires { RuleReady text.now at line c words.old }
    ensures { RuleStepped c names.now words.old (drop at text.now) line result words.new }
{
    match add_rule(text, at + line.from, line, c, names, words) {
        Ok(()) => Ok(went(c, line, c.items, c.rules + 1)),
        Err(fault) => Err(stopped(c, fault)),
    }
}

// A rule's kind by its key; a cap's for a key that is no rule's, which is why it is no `From`.
fn kind_of(key: Key) -> u64
    ensures { result ≡ rule_kind key }
{
    match key {
        Key::Floor => rules::FLOOR,
        Key::Follow => rules::FOLLOW,
        _ => rules::CAP,
    }
}

// Puts the rule of a line, whose names stand at a place and are looked up among the items so far, behind the rules so far: 4 where there are 1,024 or
// the line has over 8 left names, 6 where a name is no item, 7 where the left names do not rise.
fn add_rule(
    text: &[u8],
    from: usize,
    line: Line,
    c: Counts,
    names: &[u8],
    words: &mut [u64],
) -> Result<(), Fault>
    requires { NamesReady text.now from line.value words.old }
    ensures { RuleAdded names.now c.items text.now from (rule_kind line.key) line.value words.old c.rules result words.new }
{
    let key = line.key;
    let value = line.value;
    let class = value.class;
    if MOST_RULES <= c.rules {
        return Err(Fault::TooMany);
    }
    if MOST_LEFT < value.names {
        return Err(Fault::TooMany);
    }
    let known = Known {
        names,
        count: c.items,
    };
    let Some(left) = known.look_up(text, from, value.names) else {
        return Err(Fault::NoSuchItem);
    };
    let Ok(Some(right)) = known.right_item(text, from + value.left + 1, value.right) else {
        return Err(Fault::NoSuchItem);
    };
    if !rises(&left, value.names) {
        return Err(Fault::LeftOrder);
    }
    let rule = Rule {
        kind: kind_of(key),
        count: value.names as u64,
        left,
        right: right as u64,
        class,
    };
    put_rule(rule, words, c.rules);
    Ok(())
}

// Ends the book: 8 where the count is not that of the lines before this one, and at the next line where text follows.
fn end_step(text: &[u8], at: usize, line: Line, c: Counts) -> Result<Next, Refusal>
    requires { LineReady text.now at line c }
    ensures { EndStepped c (drop at text.now) line result }
{
    if line.value.count != c.lines as u64 {
        return Err(stopped(c, Fault::EndCount));
    }
    if text.len() - at != line_len(line) {
        return Err(Fault::EndCount.at(c.lines as u64 + 2));
    }
    Ok(Next::End(Head {
        items: c.items,
        rules: c.rules,
    }))
}
