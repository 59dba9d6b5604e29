// Makes the calls that standard input has, and prints the answer of each and what it leaves in the lent buffers. tests/calls/README.md says how a call
// and an answer are written, and which routine has which number.
#![tactic(auto)]

use routines::answer::answer_out;
use routines::routine::Routine;
use std::io;
use std::io::{Print, Read};
use wire::buffers::{Buffers, buffers_out};
use wire::input::Calls;

// The most elements that a call lends of each buffer.
const MOST_TEXT: usize = 40000;

const MOST_ITEMS: usize = 5000;

const MOST_OUT: usize = 33000;

const MOST_RULES: usize = 14000;

const MOST_LABELS: usize = 300;

// The turns are counted, to a number that no run comes to, since a proved loop has to end.
fn main(rt: HostRuntime) -> io::Result<()> {
    let mut calls = Calls::new(rt.stdin());
    for _ in 0..u64::MAX {
        let Some(number) = calls.next_word()? else {
            return Ok(());
        };
        if !run(&rt, number, &mut calls)? {
            return println!(rt; "bad call");
        }
    }
    Ok(())
}

// Reads the rest of a call to its end, makes it, unless something in it has not the form, and prints its answer and the buffers after it. Answers whether it was
// made.
fn run<P: Print, R: Read>(out: &P, number: u64, calls: &mut Calls<R>) -> io::Result<bool> {
    // The buffers stand before all that is read: behind a read they would be cleared twice.
    let mut text = [0u8; MOST_TEXT];
    let mut items = [0u8; MOST_ITEMS];
    let mut output = [0u8; MOST_OUT];
    let mut rules = [0u64; MOST_RULES];
    // Two arrays, since `solve` and `assign` write into two buffers, of any two lengths.
    let mut levels = [0u64; MOST_LABELS];
    let mut marks = [0u64; MOST_LABELS];
    let mut kept = [false; MOST_LABELS];
    let numbers = calls.numbers()?;
    let mut buffers = Buffers {
        text: calls.lent(&mut text)?,
        items: calls.lent(&mut items)?,
        out: calls.lent(&mut output)?,
        rules: calls.lent(&mut rules)?,
        levels: calls.lent(&mut levels)?,
        marks: calls.lent(&mut marks)?,
        kept: calls.lent(&mut kept)?,
    };
    let Ok(routine) = Routine::try_from(number) else {
        return Ok(false);
    };
    if !calls.good {
        return Ok(false);
    }
    let answer = routine.call(numbers, &mut buffers);
    answer_out(out, answer)?;
    buffers_out(out, &buffers)?;
    Ok(true)
}
