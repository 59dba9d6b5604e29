// Solving: the wanted labels of a book that stands in a flat table of rules.
#![tactic(auto)]

ghost use Rattle.std.specs.Prelude.{◌≡◌, ◌≤◌};
ghost use Rattle.labels.specs.Labels.{Room};
ghost use Rattle.refusals.specs.Sizes.{most_items};
ghost use Rattle.solver.specs.Solving.{held, said_solved, SolveSays};
ghost use Rattle.solver.specs.InnerLowers.{HandsOut};

use accepts::rules_ok;
use classes::Class;
use label::label;
use labels::Labels;
use refusals::{Fault, MOST_ITEMS, Refusal};
use rules::Head;

mod floors;
mod label;
mod lower;
mod settle;

// The labels that solving works on, one for each item that there may be.
pub(crate) type Working = [Class; MOST_ITEMS];

// Writes the wanted labels of a book's items under the rules of its table, and answers their count. Refused are, in this order, a
// table that is not accepted (BadTable at 0), buffers too short for the labels (NoRoom at 0), and a book without a labelling
// (NoLabelling at its lowest part that has none). A refusal leaves both buffers untouched; a success writes from the front a
// label for each item, and leaves the rest. Levels and marks are two lent buffers, of any two lengths, as `SolveSays` has them.
pub fn solve(
    rules: &[u64],
    head: Head,
    levels: &mut [u64],
    marks: &mut [u64],
) -> Result<usize, Refusal>
    ensures { SolveSays head rules.now (held levels.old marks.old) (said_solved result) (held levels.new marks.new) }
{
    if !rules_ok(rules, head) {
        return Err(Fault::BadTable.at(0));
    }
    if !(Labels { levels, marks }).has_room(head.items) {
        return Err(Fault::NoRoom.at(0));
    }
    let mut labels = [Class::HIGHEST; MOST_ITEMS];
    if let Err(part) = label(rules, head, &mut labels) {
        return Err(Fault::NoLabelling.at(part));
    }
    hand_out(&labels, head.items, levels, marks);
    Ok(head.items)
}

// Writes the first n labels to the front of two lent buffers.
#[tactic(auto, using(crate::proofs::HandingOut::handed_none, crate::proofs::HandingOut::handed_more))]
fn hand_out(labels: &Working, n: usize, levels: &mut [u64], marks: &mut [u64])
    requires size { n ≤ most_items }
    requires room { Room n levels.old marks.old }
    ensures { HandsOut labels.now n (held levels.old marks.old) (held levels.new marks.new) }
{
    for (i, label) in labels[..n].iter().enumerate() {
        levels[i] = label.level;
        marks[i] = label.marks;
    }
}
