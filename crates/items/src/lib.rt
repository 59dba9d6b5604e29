// The item table: names of 1 to 16 bytes, each in 16 bytes with zeros behind it, lent as one slice with the number of its items.
//
// Every function takes any input: a byte past the table's end is 0, and nothing is required.
#![tactic(auto)]

ghost use Rattle.std.specs.Prelude.{◌≡◌};
ghost use Rattle.laws.specs.Tells.{Tells};
ghost use Rattle.items.specs.Names.{is_name};
ghost use Rattle.items.specs.Table.{entry_byte, name_len, SameEntry, ZerosFrom, NameAt, NewAt, ItemsOk};
ghost use Rattle.items.specs.Lookup.{said_found, FindSays};

use refusals::{Fault, MOST_ITEMS, Refusal};

// The room that a table has for each name, and the most bytes of a name.
pub const NAME_ROOM: usize = 16;

// The bytes of a table of the most items.
pub const WHOLE_TABLE: usize = MOST_ITEMS * NAME_ROOM;

// BadTable at 0 where there are over 256 items or the buffer has no room for n; None where the bytes are no name or no item has it; else the
// lowest number of an item with these bytes, from 0.
pub fn find(items: &[u8], n: usize, name: &[u8]) -> Result<Option<usize>, Refusal>
    ensures { FindSays items.now n name.now (said_found result) }
{
    if MOST_ITEMS < n || items.len() < n * NAME_ROOM {
        return Err(Fault::BadTable.at(0));
    }
    if !is_name(name) {
        return Ok(None);
    }
    Ok((0..n).find(|i| same(items, *i, name, 0)))
}

// No where there are over 256 items, the buffer has no room for n, or one of the n entries is no name with zeros behind it or the same
// as an earlier one; else yes.
pub fn items_ok(items: &[u8], n: usize) -> bool
    ensures { Tells (ItemsOk items.now n) result }
{
    if MOST_ITEMS < n || items.len() < n * NAME_ROOM {
        return false;
    }
    (0..n).all(|i| holds_new_name(items, i))
}

// Whether these bytes are a name: 1 to 16 of a-z, 0-9 and hyphen.
fn is_name(name: &[u8]) -> bool
    ensures { result ≡ is_name name.now }
{
    if name.is_empty() || NAME_ROOM < name.len() {
        return false;
    }
    name.iter().all(|b| scans::is_name_byte(*b))
}

// How many bytes of entry i stand before its first zero byte: 16 where it has none, 0 where the entry lies outside the table.
pub fn name_len(items: &[u8], i: usize) -> usize
    ensures { result ≡ name_len items.now i }
{
    (0..NAME_ROOM)
        .find(|k| byte(items, i, *k) == 0)
        .unwrap_or(NAME_ROOM)
}

// Byte k of entry i, and 0 past the table's end.
fn byte(items: &[u8], i: usize, k: usize) -> u8
    ensures { result ≡ entry_byte items.now i k }
{
    let at = i.saturating_mul(NAME_ROOM).saturating_add(k);
    items.get(at).copied().unwrap_or(0)
}

// Whether entry i of one table and entry j of another have the same 16 bytes. A name that is lent by itself is the first entry of a table.
// It is inlined because a look-up calls it for each item, and most names differ in their first bytes.
#[inline(always)]
fn same(a: &[u8], i: usize, b: &[u8], j: usize) -> bool
    ensures { Tells (SameEntry a.now i b.now j) result }
{
    (0..NAME_ROOM).all(|k| byte(a, i, k) == byte(b, j, k))
}

// Whether entry i is a name with zeros behind it, and the same as no entry before it.
fn holds_new_name(items: &[u8], i: usize) -> bool
    ensures { Tells (NameAt items.now i × NewAt items.now i) result }
{
    holds_name(items, i) && is_new(items, i)
}

// Whether entry i is a name with zeros behind it.
fn holds_name(items: &[u8], i: usize) -> bool
    ensures { Tells (NameAt items.now i) result }
{
    let len = name_len(items, i);
    if len == 0 {
        return false;
    }
    let at = i * NAME_ROOM;
    is_name(&items[at..at + len]) && zeros_from(items, i, len)
}

// Whether the bytes of entry i from len on are zero.
fn zeros_from(items: &[u8], i: usize, len: usize) -> bool
    ensures { Tells (ZerosFrom items.now i len) result }
{
    (len..NAME_ROOM).all(|k| byte(items, i, k) == 0)
}

// Whether entry j is the same as no entry before it.
fn is_new(items: &[u8], j: usize) -> bool
    ensures { Tells (NewAt items.now j) result }
{
    (0..j).all(|i| !same(items, i, items, j))
}
