// From the text of a rulebook to its items and their labels, once for everyone who needs them.
#![tactic(auto)]

ghost use Rattle.solver.specs.Solving.{held};
ghost use Rattle.accepts.specs.Tables.{Tables};
ghost use Rattle.assign.specs.Assigning.{lent, said_assigned, BookSays, AssignSays};

use items::NAME_ROOM;
use reader::read;
use refusals::{Fault, Refusal};
use rules::Head;
use solver::solve;

// What reading refuses comes first; then 11 at 0 where `items` is shorter than the book's items or there are fewer levels or marks than items; then 9 at the
// lowest part that has no labelling. A refusal leaves the three buffers as they were. Else the names of the items and their wanted labels are written from
// the front of the buffers, the rest of each is left, and the answer is the head of the book. Levels and marks are two buffers, as in `solve`.
pub fn assign(
    text: &[u8],
    items: &mut [u8],
    levels: &mut [u64],
    marks: &mut [u64],
) -> Result<Head, Refusal>
    ensures { AssignSays text.now (lent items.old (held levels.old marks.old)) (said_assigned result) (lent items.new (held levels.new marks.new)) }
{
    let mut names = [0u8; items::WHOLE_TABLE];
    let mut rules = [0u64; rules::WHOLE_TABLE];
    let head = read(text, &mut names, &mut rules)?;
    label(&names, &rules, head, items, levels, marks)
}

// The same of a book whose tables are right.
fn label(
    names: &[u8],
    rules: &[u64],
    head: Head,
    items: &mut [u8],
    levels: &mut [u64],
    marks: &mut [u64],
) -> Result<Head, Refusal>
    requires { Tables head names.now rules.now }
    ensures { BookSays head names.now rules.now (lent items.old (held levels.old marks.old)) (said_assigned result) (lent items.new (held levels.new marks.new)) }
{
    let bytes = head.items * NAME_ROOM;
    if items.len() < bytes {
        return Err(Fault::NoRoom.at(0));
    }
    solve(rules, head, levels, marks)?;
    items[..bytes].copy_from_slice(&names[..bytes]);
    Ok(head)
}
