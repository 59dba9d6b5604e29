// The line of one record: the kept fields with commas between them. Each field is handed back as a part of the record.
ghost use Rattle.std.specs.Prelude.{length};
ghost use Rattle.records.specs.Rows.{nth_field};
ghost use Rattle.stripping.specs.Inner.{PutReady, RowPut, KeepReady, Keeps, EndReady, EndsLine};

use puts::put;
use records::nth_field;
use scans::{COMMA, CR, LF};

// Puts the line of the record at a place, whose fields end at these places.
pub(crate) fn put_row(
    text: &[u8],
    at: usize,
    ends: &[usize],
    kept: &[bool],
    out: &mut [u8],
    to: usize,
) -> usize
    requires { PutReady text.now at ends.now (length kept.now) out.old to }
    ensures { RowPut text.now at ends.now kept.now out.old to result out.new }
{
    let mut n = to;
    for (c, is_kept) in kept.iter().enumerate() {
        n = keep(text, at, ends, c, *is_kept, out, n);
    }
    end_line(out, to, n)
}

// Puts field c of the record, if it is kept, and a comma behind it.
fn keep(
    text: &[u8],
    at: usize,
    ends: &[usize],
    c: usize,
    kept: bool,
    out: &mut [u8],
    to: usize,
) -> usize
    requires { KeepReady (nth_field text.now at ends.now c) out.old to }
    ensures { Keeps (nth_field text.now at ends.now c) kept out.old to result out.new }
{
    if !kept {
        return to;
    }
    let comma = put(nth_field(text, at, ends, c), out, to).unwrap();
    out[comma] = COMMA;
    comma + 1
}

// Puts the line end of a record: over the comma behind its last field, if it has one that is kept.
fn end_line(out: &mut [u8], to: usize, n: usize) -> usize
    requires { EndReady out.old to n }
    ensures { EndsLine out.old to n result out.new }
{
    let at = if to < n { n - 1 } else { n };
    put(&[CR, LF], out, at).unwrap()
}
