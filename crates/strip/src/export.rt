// Strips the export on standard input: finds out which columns are kept, then writes record after record. Each call looks at what is held, and only where it
// cannot go on by that, one read is made: so what is bad is refused as soon as it is held, and good records are written.
//
// The turns of each loop are counted up to a number that no run comes to, since a proved loop has to end.
ghost use Rattle.std.specs.Prelude.{◌≡◌, ◌≤◌, length, IfOk, IfSome, OnErr};
ghost use Rattle.strip.specs.InnerHeld.{Held, Holds};

use crate::failure::fail;
use crate::input::{Input, nothing, read_on};
use crate::refusal::refuse;
use classes::Class;
use columns::kept_columns;
use labels::Labels;
use records::{LINE_END, MOST_FIELDS};
use refusals::MOST_TEXT;
use rules::Head;
use std::io;
use std::io::Print;
use stripping::strip;

// The most that is made of the bytes that are held at once: a last record may lack its line end.
const ROOM_OUT: usize = MOST_TEXT + LINE_END;

// Where a run stands: what is held of the input, and the number of the next record.
#[derive(Clone, Copy, Debug, PartialEq, Eq)]
struct Place {
    input: Input,
    number: u64,
}

// Strips the export by labelled items and a reader's class. While the header is not whole in what is held, it reads on.
pub(crate) fn strip_export(
    rt: &HostRuntime,
    items: &[u8],
    head: Head,
    labels: Labels,
    reader: Class,
) -> io::Result<()> {
    let mut buf = [0u8; MOST_TEXT];
    let mut kept = [false; MOST_FIELDS];
    let mut input = nothing();
    for _ in 0..u64::MAX {
        let have = input.have;
        match kept_columns(
            items,
            head,
            labels,
            reader,
            &buf[..have],
            input.last,
            &mut kept,
        ) {
            Ok(Some(n)) => return strip_records(rt, &kept[..n], &mut buf, input),
            Ok(None) => match read_on(rt, &mut buf, have)? {
                Some(next) => input = next,
                None => return Ok(()),
            },
            Err(refusal) => return refuse(rt, refusal),
        }
    }
    Ok(())
}

// Strips the records of the export, the header first, until it has ended or is refused.
fn strip_records(rt: &HostRuntime, kept: &[bool], buf: &mut [u8], input: Input) -> io::Result<()>
    requires { Holds input.have buf.old }
{
    let mut out = [0u8; ROOM_OUT];
    let mut place = Place { input, number: 1 };
    for _ in 0..u64::MAX {
        match strip_held(rt, kept, buf, &mut out, place)? {
            Some(next) => place = next,
            None => return Ok(()),
        }
    }
    Ok(())
}

// One call of `strip` on what is held. A refusal ends the run. Records that were taken are written; where none was, it reads on, or is done at the export's end.
// The place to go on at, or None at the end of a run.
fn strip_held(
    rt: &HostRuntime,
    kept: &[bool],
    buf: &mut [u8],
    out: &mut [u8],
    place: Place,
) -> io::Result<Option<Place>>
    requires { Holds place.input.have buf.old }
    ensures ok { IfOk result (λ o. IfSome o (λ p. p.input.have ≤ length buf.new)) }
    ensures err { OnErr result (length buf.new ≡ length buf.old) }
{
    let have = place.input.have;
    let last = place.input.last;
    match strip(&buf[..have], last, kept, place.number, out) {
        Ok(cut) => {
            let len = cut.len;
            if cut.records > 0 {
                return write_records(rt, &out[..len], buf, cut.used, cut.records, place);
            }
            if last {
                return Ok(None);
            }
            let Some(input) = read_on(rt, buf, have)? else {
                return Ok(None);
            };
            Ok(Some(Place {
                input,
                number: place.number,
            }))
        }
        Err(refusal) => {
            refuse(rt, refusal)?;
            Ok(None)
        }
    }
}

// Writes the lines of some records, and moves the bytes behind these records to the front of what is held.
fn write_records(
    rt: &HostRuntime,
    lines: &[u8],
    buf: &mut [u8],
    used: usize,
    records: usize,
    place: Place,
) -> io::Result<Option<Place>>
    requires { Held used place.input.have buf.old }
    ensures ok { IfOk result (λ o. IfSome o (λ p. p.input.have ≤ length buf.new)) }
    ensures err { OnErr result (length buf.new ≡ length buf.old) }
{
    if let Err(error) = rt.stdout().write_all(lines) {
        fail(rt, "standard output", error)?;
        return Ok(None);
    }
    let input = Input {
        have: move_down(buf, used, place.input.have),
        last: place.input.last,
    };
    let number = place.number.wrapping_add(records as u64);
    Ok(Some(Place { input, number }))
}

// Moves the bytes from `used` up to `have` to the front. Answers how many they are.
fn move_down(buf: &mut [u8], used: usize, have: usize) -> usize
    requires { Held used have buf.old }
    ensures { result ≤ length buf.new }
{
    buf.copy_within(used..have, 0);
    have - used
}
