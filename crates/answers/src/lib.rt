// The answer to a whole text: a rulebook goes in as text, and its labels or its refusal come out as text.
#![tactic(auto)]

ghost use Rattle.puts.specs.InnerGrowing.{Grown};
ghost use Rattle.writer.specs.Writing.{said_written};
ghost use Rattle.answers.specs.Answering.{count_line, refusal_text, AnswerSays, RoutineSays};
ghost use Rattle.answers.specs.Inner.{Whole, FrontWith};

use assign::assign;
use keys::{AT_KEY, END_KEY, FORM_KEY, REFUSED_KEY};
use labels::Labels;
use puts::{put, put_count};
use refusals::{Fault, MOST_ITEMS, MOST_TEXT, Refusal, fault_number};
use writer::write_labels;

// What the labelling program prints for a text, at the front of `out`, and its length; NoRoom at 0 where `out` is shorter than that.
pub fn answer(text: &[u8], out: &mut [u8]) -> Result<usize, Refusal>
    ensures { RoutineSays text.now out.old (said_written result) out.new }
{
    let mut made = [0; MOST_TEXT];
    let len = make(text, &mut made);
    put(&made[..len], out, 0).ok_or(Fault::NoRoom.at(0))
}

// Makes the answer at the front of a buffer that has room for it. Answers its length.
fn make(text: &[u8], out: &mut [u8]) -> usize
    requires { Whole out.old }
    ensures { FrontWith (AnswerSays text.now) out.new result }
{
    let mut items = [0u8; items::WHOLE_TABLE];
    // Two arrays: `assign` writes two lent buffers.
    let mut levels = [0u64; MOST_ITEMS];
    let mut marks = [0u64; MOST_ITEMS];
    match assign(text, &mut items, &mut levels, &mut marks) {
        Ok(head) => {
            let labels = Labels {
                levels: &levels,
                marks: &marks,
            };
            write_labels(&items, head.items, labels, out).unwrap()
        }
        Err(refusal) => refusal_text(refusal, out).unwrap(),
    }
}

// Makes the text of a refusal at the front of a buffer. Answers its length, or None where the buffer has no room for it.
fn refusal_text(refusal: Refusal, out: &mut [u8]) -> Option<usize>
    ensures { Grown out.old 0 (refusal_text refusal) out.new result }
{
    let refused = count_line(&FORM_KEY, 1, out, 0)?;
    let at = count_line(&REFUSED_KEY, fault_number(refusal.fault), out, refused)?;
    let end = count_line(&AT_KEY, refusal.place, out, at)?;
    count_line(&END_KEY, 3, out, end)
}

// Puts a line of a key, with its `=`, and a count.
fn count_line(key: &[u8], n: u64, out: &mut [u8], at: usize) -> Option<usize>
    ensures { Grown out.old at (count_line key.now n) out.new result }
{
    let count = put(key, out, at)?;
    let lf = put_count(n, out, count)?;
    put(b"\n", out, lf)
}
