// Stripping: the records at the front of a text, with only the columns that are kept.
#![tactic(auto)]

mod row;

ghost use Rattle.std.specs.Prelude.{◌≡◌};
ghost use Rattle.stripping.specs.Stripping.{said_stripped, StripSays};
ghost use Rattle.stripping.specs.Inner.{FrontSays, TakeReady, ShortReady, fitted_size};

use puts::put;
use records::{LINE_END, MOST_FIELDS, Size, read_row};
use refusals::{Fault, MOST_TEXT, Refusal};
use row::put_row;

// The most bytes that are made of a text: a last record may lack its line end.
const MOST_MADE: usize = MOST_TEXT + LINE_END;

// What was cut from the front of a text: how many bytes of it were taken, how many were written, and of how many records.
#[derive(Clone, Copy, Debug, PartialEq, Eq)]
pub struct Cut {
    pub used: usize,
    pub len: usize,
    pub records: usize,
}

// TooLong at 0 where the text has over 32,768 bytes; BadTable at 0 where there are over 256 columns; CsvSyntax at the record where the first one, which has
// this number, is bad; NoRoom at 0 where `out` is shorter than what is written. Else the whole records at the front of the text, up to a bad one, with
// only the columns that are kept. Nothing follows the text if it is the last one.
pub fn strip(
    text: &[u8],
    last: bool,
    kept: &[bool],
    number: u64,
    out: &mut [u8],
) -> Result<Cut, Refusal>
    ensures { StripSays text.now last kept.now number out.old (said_stripped result) out.new }
{
    if MOST_TEXT < text.len() {
        return Err(Fault::TooLong.at(0));
    }
    if MOST_FIELDS < kept.len() {
        return Err(Fault::BadTable.at(0));
    }
    if out.len() < text.len() + LINE_END {
        return strip_short(text, last, kept, number, out);
    }
    take(text, last, kept, out).ok_or(Fault::CsvSyntax.at(number))
}

// The same where `out` may be shorter than what is written: that is made elsewhere first.
fn strip_short(
    text: &[u8],
    last: bool,
    kept: &[bool],
    number: u64,
    out: &mut [u8],
) -> Result<Cut, Refusal>
    requires { ShortReady text.now kept.now }
    ensures { StripSays text.now last kept.now number out.old (said_stripped result) out.new }
{
    let mut made = [0u8; MOST_MADE];
    let Some(cut) = take(text, last, kept, &mut made) else {
        return Err(Fault::CsvSyntax.at(number));
    };
    let len = cut.len;
    if out.len() < len {
        return Err(Fault::NoRoom.at(0));
    }
    put(&made[..len], out, 0);
    Ok(cut)
}

// Puts the lines of the whole records at the front of a text, up to a bad one. None where the first record is bad.
// The loop stays: how far it goes on each time depends on the record that it reads.
fn take(text: &[u8], last: bool, kept: &[bool], out: &mut [u8]) -> Option<Cut>
    requires { TakeReady text.now kept.now out.old }
    ensures { FrontSays text.now last kept.now out.old result out.new }
{
    let mut ends = [0usize; MOST_FIELDS];
    let mut cut = Cut {
        used: 0,
        len: 0,
        records: 0,
    };
    while cut.used < text.len() {
        match fitted(
            read_row(text, cut.used, last, kept.len(), &mut ends),
            kept.len(),
        ) {
            Size::Whole(row) => {
                cut.len = put_row(text, cut.used, &ends, kept, out, cut.len);
                cut.used += row.bytes;
                cut.records += 1;
            }
            Size::Bad if cut.records == 0 => return None,
            Size::Bad | Size::More => return Some(cut),
        }
    }
    Some(cut)
}

// A record by the number of columns: one with another number of fields is bad.
fn fitted(found: Size, columns: usize) -> Size
    ensures { result ≡ fitted_size columns found }
{
    match found {
        Size::Whole(row) if row.fields != columns => Size::Bad,
        _ => found,
    }
}
