// The records of an RFC 4180 text: one field at a place, the record at a place with where its fields end, and each of its fields as a part of the text.
//
// Every function takes any place and any bytes. Past a text's end there is nothing.
#![tactic(auto)]

ghost use Rattle.std.specs.Prelude.{◌≡◌, ◌+◌, ◌-◌, ◌≤◌, min, length, drop, get_or};
ghost use Rattle.records.specs.Fields.{plain_byte, behind, longer_by, field_at, field_len};
ghost use Rattle.records.specs.Rows.{line_end, RowSays, start_at, nth_field};
ghost use Rattle.records.specs.Inner.{PlainRun, QuotedRun, Closing, closed_size, unfinished_size, ended_by};

use scans::{COMMA, CR, LF, QUOTE, byte_at};

// The most bytes of a record before its line end.
pub const MOST_BYTES: usize = 4096;

// The most fields of a record.
pub const MOST_FIELDS: usize = 256;

// The bytes of a line end, a CRLF.
pub const LINE_END: usize = 2;

// What stands behind a field, and the field's bytes, its quotes among them: a comma; a CRLF; nothing; a CR with nothing behind it. Open where the text ends
// between the field's quotes; Bad where it is no field of RFC 4180 with one of these behind it. Six answers about a text, none
// of them a refusal.
#[derive(Clone, Copy, Debug, PartialEq, Eq)]
pub enum Field {
    Comma(usize),
    Line(usize),
    End(usize),
    Cr(usize),
    Open,
    Bad,
}

// How many fields a record has, and how many bytes with its line end.
#[derive(Clone, Copy, Debug, PartialEq, Eq)]
pub struct Extent {
    pub fields: usize,
    pub bytes: usize,
}

// What stands where a record should: a whole one; More where the text ends before it does; Bad where it is none. Three answers about a text, none of them a
// refusal: docs/PROMISES.md names them of `read_row`.
#[derive(Clone, Copy, Debug, PartialEq, Eq)]
pub enum Size {
    Whole(Extent),
    More,
    Bad,
}

// The field that starts at a place.
pub fn read_field(text: &[u8], at: usize) -> Field
    ensures { result ≡ field_at (drop at text.now) }
{
    if text.len() <= at {
        return Field::End(0);
    }
    if text[at] != QUOTE {
        return behind_field(text, at, plain_run(text, at));
    }
    match closing(text, at + 1) {
        Some(len) => behind_field(text, at, 1 + len),
        None => Field::Open,
    }
}

// How many bytes a field has; 0 where it is none, as `field_len` of specs/Fields.antt has it.
fn field_len(found: Field) -> usize
    ensures { result ≡ field_len found }
{
    match found {
        Field::Comma(len) | Field::Line(len) | Field::End(len) | Field::Cr(len) => len,
        Field::Open | Field::Bad => 0,
    }
}

// Bad where no record stands at the place, or one with over `most` fields, with more than `ends` has room for, or with over 4,096 bytes before its line end,
// those that must still come among them; More where the text ends before the record does and is not the last one; else how large the record is. From its
// front on, `ends` then holds where each field ends that was read, up to one with no comma behind it; what is no field ends where it starts. The rest of
// `ends` is as it was.
pub fn read_row(text: &[u8], at: usize, last: bool, most: usize, ends: &mut [usize]) -> Size
    ensures { RowSays text.now at last most ends.old result ends.new }
{
    let room = most.min(ends.len());
    let mut i = at;
    for c in 0..room {
        let found = read_field(text, i);
        let end = i + field_len(found);
        ends[c] = end;
        let Field::Comma(_) = found else {
            return ended(found, last, text.len().saturating_sub(at), c + 1, i - at);
        };
        i = end + 1;
    }
    Size::Bad
}

// Field c, from 0, of the record at a place, as a part of the text; `ends` says where the fields end, as `read_row` leaves it. The field starts at the record's
// place or behind the comma of the field before it. Behind the last of the ends there is none, and past the text's end it has no bytes.
pub fn nth_field<'a>(text: &'a [u8], at: usize, ends: &[usize], c: usize) -> &'a [u8]
    ensures { result.now ≡ nth_field text.now at ends.now c }
{
    let end = end_within(ends, c, text.len());
    let start = start_within(at, ends, c, end);
    &text[start..end]
}

// Where field c ends, but at most so far; 0 where its end is not known, as `nth_field` of specs/Rows.antt has it.
fn end_within(ends: &[usize], c: usize, most: usize) -> usize
    ensures { result ≡ min (get_or ends.now c 0) most }
{
    ends.get(c).copied().unwrap_or(0).min(most)
}

// Where field c starts, but at most so far.
fn start_within(at: usize, ends: &[usize], c: usize, most: usize) -> usize
    ensures { result ≡ min (start_at at ends.now c) most }
{
    if c == 0 {
        return at.min(most);
    }
    let before = end_within(ends, c - 1, most);
    if before < most {
        return before + 1;
    }
    most
}

// The size of a record whose last field is this one: of how many fields it is, and how many bytes stand before that one. The text has `left`
// bytes from the record on.
fn ended(found: Field, last: bool, left: usize, fields: usize, before: usize) -> Size
    ensures { result ≡ ended_by last left fields before found }
{
    match found {
        Field::Line(len) => closed(fields, before, len, LINE_END),
        Field::End(len) => if last {
            closed(fields, before, len, 0)
        } else {
            unfinished(before, len)
        },
        Field::Cr(len) => if last {
            Size::Bad
        } else {
            unfinished(before, len)
        },
        Field::Open => if last { Size::Bad } else { unfinished(left, 1) },
        Field::Comma(_) | Field::Bad => Size::Bad,
    }
}

// The size of a record with a line end of so many bytes behind its last field.
fn closed(fields: usize, before: usize, len: usize, end: usize) -> Size
    requires { end ≤ line_end }
    ensures { result ≡ closed_size fields (before + len) end }
{
    if MOST_BYTES < before.saturating_add(len) {
        return Size::Bad;
    }
    Size::Whole(Extent {
        fields,
        bytes: before + len + end,
    })
}

// The size of a record that does not end in the text: at least `before` and `len` bytes of it stand before its line end.
fn unfinished(before: usize, len: usize) -> Size
    ensures { result ≡ unfinished_size (before + len) }
{
    if MOST_BYTES < before.saturating_add(len) {
        return Size::Bad;
    }
    Size::More
}

// What stands behind a field of so many bytes.
fn behind_field(text: &[u8], at: usize, len: usize) -> Field
    requires { at + len ≤ length text.now }
    ensures { result ≡ longer_by len (behind (drop (at + len) text.now)) }
{
    let end = at + len;
    if text.len() <= end {
        return Field::End(len);
    }
    if text[end] == COMMA {
        return Field::Comma(len);
    }
    if text[end] != CR {
        return Field::Bad;
    }
    if text.len() <= end + 1 {
        return Field::Cr(len);
    }
    if text[end + 1] == LF {
        Field::Line(len)
    } else {
        Field::Bad
    }
}

// How many bytes from a place on may stand in a field without quotes, one after the other.
#[tactic(auto, using(crate::proofs::Past::past_none, crate::proofs::Past::past_plain_on, crate::proofs::Past::past_plain_stop, crate::proofs::Past::past_plain_all))]
fn plain_run(text: &[u8], at: usize) -> usize
    requires { at ≤ length text.now }
    ensures { PlainRun text.now at result }
{
    for i in at..text.len() {
        if !is_plain(text[i]) {
            return i - at;
        }
    }
    text.len() - at
}

// Whether a field without quotes may hold this byte.
fn is_plain(b: u8) -> bool
    ensures { result ≡ plain_byte b }
{
    !matches!(b, COMMA | QUOTE | CR | LF)
}

// How many bytes there are from a place between quotes on up to the closing quote, and with it; None where the text has none.
// The loop stays: how far it goes on each time depends on the quote that it finds.
fn closing(text: &[u8], at: usize) -> Option<usize>
    requires { at ≤ length text.now }
    ensures { Closing text.now at result }
{
    let mut i = at;
    while i < text.len() {
        let quote = i + quoted_run(text, i);
        if text.len() <= quote {
            return None;
        }
        if byte_at(text, quote + 1) != QUOTE {
            return Some(quote + 1 - at);
        }
        i = quote + 2;
    }
    None
}

// How many bytes from a place on are no quotes, one after the other.
#[tactic(auto, using(crate::proofs::Past::past_none, crate::proofs::Past::past_quoted_on, crate::proofs::Past::past_quoted_stop, crate::proofs::Past::past_quoted_all))]
fn quoted_run(text: &[u8], at: usize) -> usize
    requires { at ≤ length text.now }
    ensures { QuotedRun text.now at result }
{
    for i in at..text.len() {
        if text[i] == QUOTE {
            return i - at;
        }
    }
    text.len() - at
}
