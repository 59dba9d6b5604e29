// The names of a rule, looked up in the item table.
ghost use Rattle.std.specs.Prelude.{◌≡◌, ◌≤◌, length, take, drop};
ghost use Rattle.items.specs.Lookup.{find_in};
ghost use Rattle.reader.specs.Names.{rising};
ghost use Rattle.reader.specs.Lines.{right_item_at};
ghost use Rattle.reader.specs.InnerAdding.{LookReady, LooksUp};

use items::find;
use refusals::{MOST_LEFT, Refusal};
use scans::{Kind, run};

// The items so far: the front of an item table.
#[derive(Clone, Copy, Debug, PartialEq, Eq)]
pub(crate) struct Known<'a> {
    pub names: &'a [u8],
    pub count: usize,
}

impl Known<'_> {
    // The item whose name is the len bytes at a place, or as many of them as the text has.
    fn find_at(self, text: &[u8], at: usize, len: usize) -> Result<Option<usize>, Refusal>
        ensures { result ≡ find_in self.entry.names.now self.entry.count (take len (drop at text.now)) }
    {
        let from = at.min(text.len());
        let size = len.min(text.len() - from);
        find(self.names, self.count, &text[from..from + size])
    }

    // The items of the left names at a place, so many of them, at the front of a left side. None where one of them is no item.
    pub(crate) fn look_up(self, text: &[u8], at: usize, count: usize) -> Option<[u64; MOST_LEFT]>
        requires { LookReady text.now at count }
        ensures { LooksUp self.entry.names.now self.entry.count count (drop at text.now) result }
    {
        let mut left = [0u64; MOST_LEFT];
        let mut place = at;
        for k in 0..count {
            let len = run(Kind::Name, text, place);
            let Ok(Some(item)) = self.find_at(text, place, len) else {
                return None;
            };
            left[k] = item as u64;
            place += len + 1;
        }
        Some(left)
    }

    // The item of the right name of len bytes at a place; a line without one has item 0 there.
    pub(crate) fn right_item(
        self,
        text: &[u8],
        at: usize,
        len: usize,
    ) -> Result<Option<usize>, Refusal>
        ensures { result ≡ right_item_at self.entry.names.now self.entry.count len (drop at text.now) }
    {
        if len == 0 {
            return Ok(Some(0));
        }
        self.find_at(text, at, len)
    }
}

// Whether the first places of a left side hold items in strictly rising order.
pub(crate) fn rises(left: &[u64], count: usize) -> bool
    requires { count ≤ length left.now }
    ensures { result ≡ rising count left.now }
{
    for k in 1..count {
        if left[k] <= left[k - 1] {
            return false;
        }
    }
    true
}
