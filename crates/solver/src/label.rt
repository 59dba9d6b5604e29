// The core: labels below a bound. It knows nothing of lent buffers; of the rules it asks that their names are items, and
// nothing of their number and their order.
ghost use Rattle.solver.specs.InnerLabels.{Bounded, LabelSays};

use super::Working;
use super::lower::lower_all;
use super::settle::settle;
use classes::lowest_mark;
use rules::Head;

// Lowers labels from a bound to the wanted ones below it, or answers as an error the lowest part in which no labelling below the
// bound meets all rules. In that case the labels that are left mean nothing.
#[tactic(auto, using(crate::proofs::Core::without_level, crate::proofs::Core::without_mark, crate::proofs::Core::all_labelled))]
pub(crate) fn label(rules: &[u64], head: Head, labels: &mut Working) -> Result<(), u64>
    requires { Bounded head rules.now labels.old }
    ensures { LabelSays head rules.now labels.old result labels.new }
{
    let w = settle(rules, head, labels);
    if w.level != 0 {
        return Err(0);
    }
    if w.marks != 0 {
        return Err(lowest_mark(w.marks) + 1);
    }
    lower_all(rules, head, labels);
    Ok(())
}
