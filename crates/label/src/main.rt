// The labelling program: reads a rulebook from standard input and prints its labels, or its refusal, on standard output.
#![tactic(auto)]

use answers::answer;
use fills::fill;
use refusals::MOST_TEXT;
use std::io;
use std::io::Print;

// One byte more than the longest text, so that a longer one is seen as such without reading on.
const ENOUGH: usize = MOST_TEXT + 1;

fn main(rt: HostRuntime) -> io::Result<()> {
    let mut input = [0u8; ENOUGH];
    let n = fill(&mut rt.stdin(), &mut input)?;
    let mut out = [0u8; MOST_TEXT];
    let Ok(len) = answer(&input[..n], &mut out) else {
        return Ok(());
    };
    rt.stdout().write_all(&out[..len])
}
