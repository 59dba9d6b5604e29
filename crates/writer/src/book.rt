// The text of a rulebook, line by line. Each function puts its text at a place of a buffer and answers the place behind it, or None where
// the buffer has no room.
ghost use Rattle.std.specs.Prelude.{◌≡◌, ◌++◌};
ghost use Rattle.items.specs.Table.{name_of, NameAt, ItemsOk};
ghost use Rattle.rules.specs.Record.{by_kind};
ghost use Rattle.accepts.specs.Tables.{Tables};
ghost use Rattle.keys.specs.Keys.{key_text};
ghost use Rattle.puts.specs.Writing.{Put};
ghost use Rattle.puts.specs.InnerGrowing.{Grown};
ghost use Rattle.writer.specs.Texts.{form_line, end_line, item_line, item_lines, left_piece, left_text, right_text, rule_key, rule_line, rule_lines, book_text};
ghost use Rattle.writer.specs.InnerTexts.{Named, NamedAt};

use items::NAME_ROOM;
use keys::Key;
use puts::{put, put_class, put_count, put_key};
use rules::{CAP, FLOOR, FOLLOW, Head, Rule, rule_at};
use scans::{COLON, DIGIT_1, LF, PLUS};

// The form line.
pub(crate) fn form_line(out: &mut [u8], at: usize) -> Option<usize>
    ensures { Grown out.old at form_line out.new result }
{
    let value = put_key(Key::Form, out, at)?;
    put(&[DIGIT_1, LF], out, value)
}

// The end line with its count.
pub(crate) fn end_line(count: u64, out: &mut [u8], at: usize) -> Option<usize>
    ensures { Grown out.old at (end_line count) out.new result }
{
    let value = put_key(Key::End, out, at)?;
    let lf = put_count(count, out, value)?;
    put(&[LF], out, lf)
}

// The name in entry i of an item table.
pub(crate) fn put_name(items: &[u8], i: usize, out: &mut [u8], at: usize) -> Option<usize>
    requires { NameAt items.now i }
    ensures { Put out.old at (name_of items.now i) out.new result }
{
    let len = items::name_len(items, i);
    let from = i * NAME_ROOM;
    put(&items[from..from + len], out, at)
}

// The line of item i.
fn item_line(items: &[u8], i: usize, out: &mut [u8], at: usize) -> Option<usize>
    requires { NameAt items.now i }
    ensures { Grown out.old at (item_line items.now i) out.new result }
{
    let name = put_key(Key::Item, out, at)?;
    let lf = put_name(items, i, out, name)?;
    put(&[LF], out, lf)
}

// Left name k of a rule with the sign behind it.
fn left_piece(items: &[u8], rule: Rule, k: usize, out: &mut [u8], at: usize) -> Option<usize>
    requires { NamedAt items.now rule k }
    ensures { Grown out.old at (left_piece items.now rule k) out.new result }
{
    let end = put_name(items, rule.left[k] as usize, out, at)?;
    let sign = if (k as u64) + 1 < rule.count {
        PLUS
    } else {
        COLON
    };
    put(&[sign], out, end)
}

// The key of a kind of rule. The kind stays a number, as in a record: `rule_key` of specs/Texts.antt goes by it (`by_kind`).
fn kind_key(kind: u64) -> Key
    ensures { result ≡ by_kind kind Key.Cap Key.Floor Key.Follow }
{
    match kind {
        CAP => Key::Cap,
        FLOOR => Key::Floor,
        _ => Key::Follow,
    }
}

// The key of a rule and its left names.
fn left_names(items: &[u8], rule: Rule, out: &mut [u8], at: usize) -> Option<usize>
    requires { Named items.now rule }
    ensures { Grown out.old at (key_text (rule_key rule) ++ left_text items.now rule) out.new result }
{
    let mut next = put_key(kind_key(rule.kind), out, at)?;
    for k in 0..rule.count as usize {
        next = left_piece(items, rule, k, out, next)?;
    }
    Some(next)
}

// What a rule has behind its left names: a follow its right name, any other its class.
fn right_side(items: &[u8], rule: Rule, out: &mut [u8], at: usize) -> Option<usize>
    requires { Named items.now rule }
    ensures { Put out.old at (right_text items.now rule) out.new result }
{
    if rule.kind == FOLLOW {
        put_name(items, rule.right as usize, out, at)
    } else {
        put_class(rule.class, out, at)
    }
}

// The line of a rule.
fn rule_line(items: &[u8], rule: Rule, out: &mut [u8], at: usize) -> Option<usize>
    requires { Named items.now rule }
    ensures { Grown out.old at (rule_line items.now rule) out.new result }
{
    let right = left_names(items, rule, out, at)?;
    let lf = right_side(items, rule, out, right)?;
    put(&[LF], out, lf)
}

// The form line and the line of each of n items.
fn item_lines(items: &[u8], n: usize, out: &mut [u8]) -> Option<usize>
    requires { ItemsOk items.now n }
    ensures { Grown out.old 0 (form_line ++ item_lines items.now n) out.new result }
{
    let mut next = form_line(out, 0)?;
    for i in 0..n {
        next = item_line(items, i, out, next)?;
    }
    Some(next)
}

// The lines before the end line: the form line, the items' and the rules'.
fn rule_lines(items: &[u8], rules: &[u64], head: Head, out: &mut [u8]) -> Option<usize>
    requires { Tables head items.now rules.now }
    ensures { Grown out.old 0 (form_line ++ item_lines items.now head.items ++ rule_lines items.now rules.now head.rules) out.new result }
{
    let mut next = item_lines(items, head.items, out)?;
    for r in 0..head.rules {
        next = rule_line(items, rule_at(rules, r), out, next)?;
    }
    Some(next)
}

// The whole text of a rulebook.
pub(crate) fn book(items: &[u8], rules: &[u64], head: Head, out: &mut [u8]) -> Option<usize>
    requires { Tables head items.now rules.now }
    ensures { Grown out.old 0 (book_text head items.now rules.now) out.new result }
{
    let end = rule_lines(items, rules, head, out)?;
    end_line((1 + head.items + head.rules) as u64, out, end)
}
