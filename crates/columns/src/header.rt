// The header of an export: its names, each of them an item, and which of its columns a class covers.
ghost use Rattle.std.specs.Prelude.{◌≡◌, ◌≤◌, length};
ghost use Rattle.laws.specs.Tells.{Tells};
ghost use Rattle.items.specs.Lookup.{find_in};
ghost use Rattle.labels.specs.Labels.{labels_in};
ghost use Rattle.records.specs.Inner.{fields_to};
ghost use Rattle.exports.specs.Names.{unquoted};
ghost use Rattle.columns.specs.Columns.{said_columns, HeaderSays};
ghost use Rattle.columns.specs.Inner.{IsField, Quoted, HoldsNumber, NumberRoom, HeaderReady, FindsItems, HeadSays, CoverReady, Covering, KeepSays};

use classes::Class;
use items::find;
use labels::Labels;
use records::{MOST_FIELDS, Size, nth_field, read_row};
use refusals::{Fault, Refusal};
use scans::QUOTE;

// The columns of an export by the header at its front, for n items with these names and labels.
pub(crate) fn by_header(
    items: &[u8],
    n: usize,
    labels: Labels,
    reader: Class,
    export: &[u8],
    last: bool,
    kept: &mut [bool],
) -> Result<Option<usize>, Refusal>
    ensures { HeaderSays items.now n (labels_in labels.entry.levels.now labels.entry.marks.now) reader export.now last kept.old (said_columns result) kept.new }
{
    let mut numbers = [0u64; MOST_FIELDS];
    let Some(fields) = read_header(items, n, export, last, &mut numbers)? else {
        return Ok(None);
    };
    keep(&numbers, fields, labels, reader, kept)
}

// Reads the header at the front of an export, and writes the item of each column.
fn read_header(
    items: &[u8],
    n: usize,
    export: &[u8],
    last: bool,
    numbers: &mut [u64],
) -> Result<Option<usize>, Refusal>
    requires { NumberRoom numbers.old }
    ensures { HeadSays items.now n export.now last numbers.new result }
{
    if export.is_empty() {
        return if last {
            Err(Fault::CsvSyntax.at(1))
        } else {
            Ok(None)
        };
    }
    let mut ends = [0usize; MOST_FIELDS];
    match read_row(export, 0, last, MOST_FIELDS, &mut ends) {
        Size::Whole(header) => if find_items(items, n, export, &ends, header.fields, numbers) {
            Ok(Some(header.fields))
        } else {
            Err(Fault::CsvHeader.at(1))
        },
        Size::More => Ok(None),
        Size::Bad => Err(Fault::CsvSyntax.at(1)),
    }
}

// Looks up the names of a header whose fields end at these places, and writes the item of each column; no where one is no item or is repeated.
fn find_items(
    items: &[u8],
    n: usize,
    export: &[u8],
    ends: &[usize],
    fields: usize,
    numbers: &mut [u64],
) -> bool
    requires { HeaderReady export.now ends.now fields numbers.old }
    ensures { FindsItems items.now n (fields_to export.now 0 ends.now fields) result numbers.new }
{
    for c in 0..fields {
        let Ok(Some(i)) = item_named(items, n, nth_field(export, 0, ends, c)) else {
            return false;
        };
        if holds(numbers, c, i as u64) {
            return false;
        }
        numbers[c] = i as u64;
    }
    true
}

// The item that a field names, its outer quotes off. A doubled quote stays as it is: no name has a quote, single or doubled.
fn item_named(items: &[u8], n: usize, field: &[u8]) -> Result<Option<usize>, Refusal>
    requires { IsField field.now }
    ensures { result ≡ find_in items.now n (unquoted field.now) }
{
    if is_quoted(field) {
        let end = field.len() - 1;
        return find(items, n, &field[1..end]);
    }
    find(items, n, field)
}

// Whether a field has quotes around it.
fn is_quoted(field: &[u8]) -> bool
    ensures { Tells (Quoted field.now) result }
{
    field.len() >= 2 && field[0] == QUOTE
}

// Whether a number is one of the first c.
fn holds(numbers: &[u64], c: usize, number: u64) -> bool
    requires { c ≤ length numbers.now }
    ensures { Tells (HoldsNumber numbers.now c number) result }
{
    numbers[..c].contains(&number)
}

// Says of each column whether the class covers the label of its item, where there is room for it.
fn keep(
    numbers: &[u64],
    fields: usize,
    labels: Labels,
    reader: Class,
    kept: &mut [bool],
) -> Result<Option<usize>, Refusal>
    requires { fields ≤ length numbers.now }
    ensures { KeepSays (labels_in labels.entry.levels.now labels.entry.marks.now) reader numbers.now fields kept.old result kept.new }
{
    if kept.len() < fields {
        return Err(Fault::NoRoom.at(0));
    }
    cover(numbers, fields, labels, reader, kept);
    Ok(Some(fields))
}

// Says of each column whether the class covers the label of its item.
fn cover(numbers: &[u64], fields: usize, labels: Labels, reader: Class, kept: &mut [bool])
    requires { CoverReady numbers.now fields kept.old }
    ensures { Covering (labels_in labels.entry.levels.now labels.entry.marks.now) reader numbers.now fields kept.old kept.new }
{
    for c in 0..fields {
        kept[c] = reader.covers(labels.label_at(numbers[c]));
    }
}
