// Writing: the text of a rulebook from its two tables, and the text of a labelling.
//
// Each function writes from the front of a lent buffer. Where it refuses, the buffer is as it was; else what lies behind the text is as it was.
#![tactic(auto)]

mod book;
mod labelled;

ghost use Rattle.writer.specs.Writing.{said_written, WriteSays, LabelsSays};
ghost use Rattle.writer.specs.InnerTexts.{CopySays};

use labels::Labels;
use refusals::{Fault, MOST_TEXT, Refusal};
use rules::Head;

// BadTable at 0 where the item table or the rule table is not right under this head; TooLong at 0 where the text has over 32,768 bytes; NoRoom
// at 0 where `out` is shorter than the text; else the text is at the front of `out`, and the answer is its length.
pub fn write(items: &[u8], rules: &[u64], head: Head, out: &mut [u8]) -> Result<usize, Refusal>
    ensures { WriteSays head items.now rules.now out.old (said_written result) out.new }
{
    if !items::items_ok(items, head.items) || !accepts::rules_ok(rules, head) {
        return Err(Fault::BadTable.at(0));
    }
    let mut text = [0; MOST_TEXT];
    let len = book::book(items, rules, head, &mut text).ok_or(Fault::TooLong.at(0))?;
    copy_out(&text[..len], out)
}

// BadTable at 0 where the item table is not right with n items; NoRoom at 0 where there are fewer than n levels or marks; BadLabel at the first
// of the n items whose level is over 15; NoRoom at 0 where `out` is shorter than the text; else the text is at the front of `out`, and the
// answer is its length. The text never has over 32,768 bytes.
pub fn write_labels(
    items: &[u8],
    n: usize,
    labels: Labels,
    out: &mut [u8],
) -> Result<usize, Refusal>
    ensures { LabelsSays items.now n labels.entry.levels.now labels.entry.marks.now out.old (said_written result) out.new }
{
    if !items::items_ok(items, n) {
        return Err(Fault::BadTable.at(0));
    }
    if !labels.has_room(n) {
        return Err(Fault::NoRoom.at(0));
    }
    if let Some(bad) = labels.first_bad(n) {
        return Err(Fault::BadLabel.at(bad as u64));
    }
    let mut text = [0; MOST_TEXT];
    let len = labelled::labels_text(items, n, labels, &mut text).unwrap();
    copy_out(&text[..len], out)
}

// NoRoom at 0 where `out` is shorter than the text; else the text is at the front of `out`, and the answer is its length.
fn copy_out(text: &[u8], out: &mut [u8]) -> Result<usize, Refusal>
    ensures { CopySays text.now out.old (said_written result) out.new }
{
    puts::put(text, out, 0).ok_or(Fault::NoRoom.at(0))
}
