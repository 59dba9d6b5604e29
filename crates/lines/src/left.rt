// The left side of a rule: names with plus signs between them.
ghost use Rattle.std.specs.Prelude.{◌≡◌, drop};
ghost use Rattle.lines.specs.Left.{left_at};

use scans::{PLUS, byte_at};
use tokens::read_name;

// A left side that stands in a text: how many names it has, and its length there, with the plus signs between them.
#[derive(Clone, Copy, Debug, PartialEq, Eq)]
pub struct LeftSide {
    pub names: usize,
    pub len: usize,
}

// The left side at a place: a name, and one more for each plus sign that follows. None where one of them is no name.
pub(crate) fn read_left(s: &[u8], at: usize) -> Option<LeftSide>
    ensures { result ≡ left_at (drop at s.now) }
{
    let mut names = 0;
    let mut place = at;
    // A loop: how far the place moves, and whether it goes on, is known only when a name was read.
    loop {
        let n = read_name(s, place)?;
        let end = place + n;
        names += 1;
        if byte_at(s, end) != PLUS {
            let len = end - at;
            return Some(LeftSide { names, len });
        }
        place = end + 1;
    }
}
