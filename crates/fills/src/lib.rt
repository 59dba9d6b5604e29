// Reading into a buffer until it is full.
#![tactic(auto)]

ghost use Rattle.std.specs.Prelude.{◌≡◌, ◌<◌, ◌≤◌, length, take, IfOk, OnErr};
ghost use Rattle.std.specs.Io.KnownBytes.{Consumes, IsAtEnd};

use std::io;
use std::io::Read;

// Reads until the buffer is full or the input ends. Answers how many bytes are held then, those that the input had next, and an error where a read fails.
pub fn fill<R: Read>(input: &mut R, buf: &mut [u8]) -> io::Result<usize>
    ensures within { IfOk result (λ n. n ≤ length buf.new) }
    ensures bytes { IfOk result (λ n. Consumes (R.remaining input.old) (R.remaining input.new) (take n buf.new)) }
    ensures end { IfOk result (λ n. n < length buf.new → IsAtEnd (R.remaining input.new)) }
    ensures err { OnErr result (length buf.new ≡ length buf.old) }
{
    let mut have = 0;
    // Not a `for`: each read says how many bytes it took, so that turns are no index, and `read_exact` says nothing of what is held where the input ends.
    while have < buf.len() {
        let n = input.read(&mut buf[have..])?;
        if n == 0 {
            return Ok(have);
        }
        have += n;
    }
    Ok(have)
}
