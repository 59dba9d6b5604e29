// Reading a rulebook: from text to the item table and the rule table.
#![tactic(auto)]

mod line;
mod names;

ghost use Rattle.reader.specs.Reading.{said_read, ReadSays};
ghost use Rattle.reader.specs.InnerLines.{StartsEmpty, Gives, Holds, CopiedOut};

use line::{Counts, Next, step};
use refusals::{Fault, MOST_TEXT, Refusal};
use rules::Head;

// Refused with TooLong where the text has over 32,768 bytes; with the fault of the first faulty line, and that line; with NoRoom where a lent
// table is shorter than what was read. Else the tables are written from the front, unused room zero, and the answer is the head of the book.
pub fn read(text: &[u8], items: &mut [u8], rules: &mut [u64]) -> Result<Head, Refusal>
    ensures { ReadSays text.now items.old rules.old (said_read result) items.new rules.new }
{
    if MOST_TEXT < text.len() {
        return Err(Fault::TooLong.at(0));
    }
    let mut names = [0u8; items::WHOLE_TABLE];
    let mut words = [0u64; rules::WHOLE_TABLE];
    let head = read_lines(text, &mut names, &mut words)?;
    copy_out(head, &names, &words, items, rules)
}

// Copies the tables of a book to the front of lent ones. Refused with NoRoom where a lent table is shorter.
fn copy_out(
    head: Head,
    names: &[u8],
    words: &[u64],
    items: &mut [u8],
    rules: &mut [u64],
) -> Result<Head, Refusal>
    requires { Holds head names.now words.now }
    ensures { CopiedOut head names.now words.now items.old rules.old result items.new rules.new }
{
    let bytes = head.items * items::NAME_ROOM;
    let size = head.rules * rules::WORDS;
    if items.len() < bytes {
        return Err(Fault::NoRoom.at(0));
    }
    if rules.len() < size {
        return Err(Fault::NoRoom.at(0));
    }
    items[..bytes].copy_from_slice(&names[..bytes]);
    rules[..size].copy_from_slice(&words[..size]);
    Ok(head)
}

// Reads line after line into tables that are all zero.
// The loop stays: where a line ends is known only once `step` has read it.
fn read_lines(text: &[u8], names: &mut [u8], words: &mut [u64]) -> Result<Head, Refusal>
    requires { StartsEmpty text.now names.old words.old }
    ensures { Gives text.now result names.new words.new }
{
    let mut c = Counts {
        lines: 0,
        after: 0,
        items: 0,
        rules: 0,
    };
    let mut at = 0;
    loop {
        match step(text, at, c, names, words)? {
            Next::Line(next, k) => {
                c = next;
                at += k;
            }
            Next::End(head) => return Ok(head),
        }
    }
}
