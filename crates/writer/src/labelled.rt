// The text of a labelling, line by line. Each function puts its text at a place of a buffer and answers the place behind it, or None where
// the buffer has no room.
ghost use Rattle.std.specs.Prelude.{◌++◌};
ghost use Rattle.items.specs.Table.{NameAt, ItemsOk};
ghost use Rattle.puts.specs.InnerGrowing.{Grown};
ghost use Rattle.writer.specs.Texts.{form_line, label_name, label_line, label_lines, labels_text};

use super::book::{end_line, form_line, put_name};
use keys::LABEL_KEY;
use labels::Labels;
use puts::{put, put_class};
use scans::{COLON, LF};

// The key of a label, and the name of item i with the colon behind it.
fn label_name(items: &[u8], i: usize, out: &mut [u8], at: usize) -> Option<usize>
    requires { NameAt items.now i }
    ensures { Grown out.old at (label_name items.now i) out.new result }
{
    let name = put(&LABEL_KEY, out, at)?;
    let colon = put_name(items, i, out, name)?;
    put(&[COLON], out, colon)
}

// The line of item i with its label.
fn label_line(items: &[u8], labels: Labels, i: usize, out: &mut [u8], at: usize) -> Option<usize>
    requires { NameAt items.now i }
    ensures { Grown out.old at (label_line items.now labels.entry.levels.now labels.entry.marks.now i) out.new result }
{
    let class = label_name(items, i, out, at)?;
    let lf = put_class(labels.label_at(i as u64), out, class)?;
    put(&[LF], out, lf)
}

// The lines before the end line: the form line and the line of each of n items.
fn label_lines(items: &[u8], n: usize, labels: Labels, out: &mut [u8]) -> Option<usize>
    requires { ItemsOk items.now n }
    ensures { Grown out.old 0 (form_line ++ label_lines items.now n labels.entry.levels.now labels.entry.marks.now) out.new result }
{
    let mut next = form_line(out, 0)?;
    for i in 0..n {
        next = label_line(items, labels, i, out, next)?;
    }
    Some(next)
}

// The whole text of a labelling.
pub(crate) fn labels_text(items: &[u8], n: usize, labels: Labels, out: &mut [u8]) -> Option<usize>
    requires { ItemsOk items.now n }
    ensures { Grown out.old 0 (labels_text items.now n labels.entry.levels.now labels.entry.marks.now) out.new result }
{
    let end = label_lines(items, n, labels, out)?;
    end_line((1 + n) as u64, out, end)
}
