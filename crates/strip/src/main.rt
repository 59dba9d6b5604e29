// The stripping program, `strip BOOK CLASS`: cuts the export on standard input down to what a reader of this class may see by this rulebook, on
// standard output. A refusal goes to standard error.
#![tactic(auto)]

ghost use Rattle.std.specs.Prelude.{◌≤◌, length, IfOk};

mod arguments;
mod export;
mod failure;
mod input;
mod refusal;

use arguments::{are_two, argument};
use assign::assign;
use columns::reader_class;
use export::strip_export;
use failure::fail;
use fills::fill;
use labels::Labels;
use refusal::refuse;
use refusals::{MOST_ITEMS, MOST_TEXT};
use rules::Head;
use std::fs::File;
use std::io;

// One byte more than the longest rulebook, so that a longer one is seen as such without reading on.
const ENOUGH: usize = MOST_TEXT + 1;

// The most bytes of a path.
const MOST_PATH: usize = 4096;

fn main(rt: HostRuntime) -> io::Result<()> {
    if !are_two(&rt) {
        return eprintln!(rt; "usage: strip BOOK CLASS");
    }
    let mut path = [0u8; MOST_PATH];
    let Some(n) = argument(&rt, 1, &mut path) else {
        return eprintln!(rt; "BOOK: File name too long");
    };
    let Ok(path) = str::from_utf8(&path[..n]) else {
        return eprintln!(rt; "BOOK: not UTF-8");
    };
    let mut book = [0u8; ENOUGH];
    match read_book(&rt, path, &mut book) {
        Ok(len) => run(&rt, &book[..len]),
        Err(error) => fail(&rt, path, error),
    }
}

// Reads as much of a rulebook as the buffer holds.
fn read_book(rt: &HostRuntime, path: &str, book: &mut [u8]) -> io::Result<usize>
    ensures { IfOk result (λ n. n ≤ length book.new) }
{
    let mut file = File::open(rt, path)?;
    fill(&mut file, book)
}

// Labels the book, and strips the export by it if it is not refused.
fn run(rt: &HostRuntime, book: &[u8]) -> io::Result<()> {
    let mut items = [0u8; items::WHOLE_TABLE];
    // Two arrays: `assign` writes two lent buffers.
    let mut levels = [0u64; MOST_ITEMS];
    let mut marks = [0u64; MOST_ITEMS];
    match assign(book, &mut items, &mut levels, &mut marks) {
        Ok(head) => run_labelled(
            rt,
            &items,
            head,
            Labels {
                levels: &levels,
                marks: &marks,
            },
        ),
        Err(refusal) => refuse(rt, refusal),
    }
}

// Strips the export for the class that the second argument gives, if it is one. An argument that is too long for the buffer is no class.
fn run_labelled(rt: &HostRuntime, items: &[u8], head: Head, labels: Labels) -> io::Result<()> {
    let mut class = [0u8; 64];
    let k = argument(rt, 2, &mut class).unwrap_or(0);
    match reader_class(&class[..k]) {
        Ok(reader) => strip_export(rt, items, head, labels, reader),
        Err(refusal) => refuse(rt, refusal),
    }
}
