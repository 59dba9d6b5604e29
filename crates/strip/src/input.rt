// Reading standard input into a buffer. A read into a buffer with no room left would look like the end of the input, so that none is made.
ghost use Rattle.std.specs.Prelude.{◌≡◌, ◌<◌, ◌≤◌, length, IfOk, IfSome, OnErr};

use crate::failure::fail;
use std::io;
use std::io::Read;

// How many bytes a buffer holds, and whether the input has ended: the flag that `kept_columns` and `strip` take.
#[derive(Clone, Copy, Debug, PartialEq, Eq)]
pub(crate) struct Input {
    pub(crate) have: usize,
    pub(crate) last: bool,
}

// One read of standard input behind the bytes that are held, however many bytes it gives. Where it fails, that is said on standard error, and there is None.
pub(crate) fn read_on(rt: &HostRuntime, buf: &mut [u8], have: usize) -> io::Result<Option<Input>>
    requires { have < length buf.old }
    ensures ok { IfOk result (λ o. IfSome o (λ i. i.have ≤ length buf.new)) }
    ensures err { OnErr result (length buf.new ≡ length buf.old) }
{
    match read_once(&mut rt.stdin(), buf, have) {
        Ok(input) => Ok(Some(input)),
        Err(error) => {
            fail(rt, "standard input", error)?;
            Ok(None)
        }
    }
}

// Nothing is read.
pub(crate) fn nothing() -> Input
    ensures { result.have ≤ 0 }
{
    Input {
        have: 0,
        last: false,
    }
}

// One read behind the bytes that are held. Where it gives none, the input has ended.
fn read_once<R: Read>(input: &mut R, buf: &mut [u8], have: usize) -> io::Result<Input>
    requires { have < length buf.old }
    ensures have_le_have { IfOk result (λ i. have ≤ i.have) }
    ensures have_in_bounds { IfOk result (λ i. i.have ≤ length buf.new) }
    ensures err { OnErr result (length buf.new ≡ length buf.old) }
{
    let n = input.read(&mut buf[have..])?;
    Ok(Input {
        have: have + n,
        last: n == 0,
    })
}
