// The columns of an export that a reader may see: from labelled items, the reader's class and the export's header.
#![tactic(auto)]

mod header;

ghost use Rattle.columns.specs.Reader.{said_reader, ReaderSays};
ghost use Rattle.columns.specs.Columns.{said_columns, ColumnsSays};

use classes::Class;
use header::by_header;
use items::items_ok;
use labels::Labels;
use refusals::{Fault, Refusal};
use rules::Head;
use tokens::read_class;

// BadLabel at 0 where the text is not exactly a class; else the class.
pub fn reader_class(text: &[u8]) -> Result<Class, Refusal>
    ensures { ReaderSays text.now (said_reader result) }
{
    match read_class(text, 0) {
        Some(token) if token.len == text.len() => Ok(token.class),
        _ => Err(Fault::BadLabel.at(0)),
    }
}

// BadTable at 0 where the item table is not right; NoRoom at 0 where there are fewer labels than items; BadLabel at the first item whose level is over 15;
// CsvSyntax at 1 where the export has no header or a bad one, and CsvHeader at 1 where a name in it is no item or is repeated; then NoRoom at 0 where `kept`
// is shorter than the header. None where the export ends before its header does. Else the number of the columns, and `kept` says of each whether the class
// covers the label of its item. Of the head only the items are looked at. Nothing follows the export if it is the last text of it.
pub fn kept_columns(
    items: &[u8],
    head: Head,
    labels: Labels,
    reader: Class,
    export: &[u8],
    last: bool,
    kept: &mut [bool],
) -> Result<Option<usize>, Refusal>
    ensures { ColumnsSays items.now head labels.entry.levels.now labels.entry.marks.now reader export.now last kept.old (said_columns result) kept.new }
{
    let n = head.items;
    if !items_ok(items, n) {
        return Err(Fault::BadTable.at(0));
    }
    if !labels.has_room(n) {
        return Err(Fault::NoRoom.at(0));
    }
    if let Some(bad) = labels.first_bad(n) {
        return Err(Fault::BadLabel.at(bad as u64));
    }
    by_header(items, n, labels, reader, export, last, kept)
}
