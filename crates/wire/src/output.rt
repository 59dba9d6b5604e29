// Words of standard output: each is a line of sixteen hex digits.
ghost use Rattle.std.specs.Prelude.{◌≤◌, length};

use crate::elements::Element;
use crate::input::{LEVEL, LINE};
use classes::Class;
use puts::{put, put_class};
use scans::LF;
use std::io;
use std::io::Print;

// The bytes that are written at once: whole lines.
const CHUNK: usize = LINE * 240;

// Lines that are still to be written, before a place of a chunk.
#[derive(Drop)]
struct Lines<'a, P> {
    out: &'a P,
    chunk: [u8; CHUNK],
    at: usize,
    ghost within: { at ≤ length chunk },
}

impl<'a, P: Print> Lines<'a, P> {
    fn new(out: &'a P) -> Lines<'a, P> {
        let chunk = [0u8; CHUNK];
        Lines { out, chunk, at: 0 }
    }

    // Puts the line of a word into the chunk, which is written first where it is full. Its digits are put as the marks of a class.
    fn push(&mut self, word: u64) -> io::Result<()> {
        let mut class = [LF; LEVEL + LINE];
        put_class(Class::new(0, word), &mut class, 0);
        if self.at > CHUNK - LINE {
            self.out.write_all(&self.chunk)?;
            self.at = 0;
        }
        put(&class[LEVEL..], &mut self.chunk, self.at);
        self.at += LINE;
        Ok(())
    }

    // Writes what stands in the chunk.
    fn flush(&self) -> io::Result<()> {
        self.out.write_all(&self.chunk[..self.at])
    }
}

// Words, and nothing else.
pub fn lines_out<P: Print>(out: &P, words: &[u64]) -> io::Result<()> {
    let mut lines = Lines::new(out);
    for word in words {
        lines.push(*word)?;
    }
    lines.flush()
}

// A buffer of words: its room, and each word.
pub fn words_out<P: Print>(out: &P, words: &[u64]) -> io::Result<()> {
    buffer_out(out, words)
}

// A buffer: its room, and each element.
pub fn buffer_out<P: Print, T: Element>(out: &P, buffer: &[T]) -> io::Result<()> {
    let mut lines = Lines::new(out);
    lines.push(buffer.len() as u64)?;
    for element in buffer {
        lines.push(element.to_word())?;
    }
    lines.flush()
}
