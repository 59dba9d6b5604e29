// What a call is made of, read from standard input: words, each a line of sixteen hex digits.
ghost use Rattle.std.specs.Prelude.{◌≡◌, ◌≤◌, length, true, false, IfOk, IsNone};
ghost use Rattle.std.specs.Io.KnownBytes.{IsAtEnd};

use crate::elements::Element;
use fills::fill;
use puts::put;
use rules::Head;
use scans::{LF, byte_at};
use std::io;
use std::io::Read;
use tokens::read_class;

// The bytes of a line.
pub(crate) const LINE: usize = 17;

// What the text of a class has in front of its sixteen digits.
pub(crate) const LEVEL: usize = 2;

// The six numbers of a call.
#[derive(Clone, Copy, Debug, PartialEq, Eq)]
pub struct Numbers {
    pub a: u64,
    pub b: u64,
    pub c: u64,
    pub d: u64,
    pub e: u64,
    pub f: u64,
}

impl Numbers {
    // The first two, as a head: of how many items, and of how many rules.
    pub fn head(self) -> Head
        ensures items { result.items ≡ self.a }
        ensures rules { result.rules ≡ self.b }
    {
        Head {
            items: self.a as usize,
            rules: self.b as usize,
        }
    }
}

// Reads calls, and keeps in mind whether all that was read has the form. A flag and no Result of each word, since the program reads a call to its end before it
// prints `bad call`, and a read that fails there comes first: what has not the form stands for some value till then.
#[derive(Drop)]
pub struct Calls<R> {
    pub input: R,
    pub good: bool,
}

impl<R: Read> Calls<R> {
    // The calls of an input.
    pub fn new(input: R) -> Calls<R>
        ensures { result.good ≡ true }
    {
        Calls { input, good: true }
    }

    // The next word, unless the input has ended. Its digits are read as the marks of a class.
    pub fn next_word(&mut self) -> io::Result<Option<u64>>
        ensures end { IfOk result (λ w. IsNone w → IsAtEnd (R.remaining self.new.input)) }
        ensures bad { self.old.good ≡ false → self.new.good ≡ false }
    {
        let mut line = [0u8; LINE];
        let n = fill(&mut self.input, &mut line)?;
        if n == 0 {
            return Ok(None);
        }
        let mut class = [0u8; LEVEL + LINE];
        put(b"0/", &mut class, 0);
        put(&line[..n], &mut class, LEVEL);
        Ok(Some(match read_class(&class, 0) {
            Some(token) => {
                self.good &= byte_at(&class, token.len) == LF;
                token.class.marks
            }
            None => {
                self.good = false;
                0
            }
        }))
    }

    // The next word of a call. It has not the form where the input has ended.
    fn word(&mut self) -> io::Result<u64>
        ensures bad { self.old.good ≡ false → self.new.good ≡ false }
    {
        let word = self.next_word()?;
        self.good &= word.is_some();
        Ok(word.unwrap_or(0))
    }

    // The numbers of a call.
    pub fn numbers(&mut self) -> io::Result<Numbers>
        ensures bad { self.old.good ≡ false → self.new.good ≡ false }
    {
        Ok(Numbers {
            a: self.word()?,
            b: self.word()?,
            c: self.word()?,
            d: self.word()?,
            e: self.word()?,
            f: self.word()?,
        })
    }

    // Reads the elements of a buffer that a call lends, and answers the front of the buffer that is lent. None is where the sizes may not be.
    pub fn lent<'b, T: Element>(&mut self, buf: &'b mut [T]) -> io::Result<&'b mut [T]>
        ensures within { IfOk result (λ front. length front.now ≤ length buf.old) }
        ensures bad { self.old.good ≡ false → self.new.good ≡ false }
    {
        let room = self.word()?;
        let count = self.word()?;
        if room > buf.len() as u64 || count > room {
            self.good = false;
            return Ok(&mut buf[..0]);
        }
        for slot in &mut buf[..count as usize] {
            match T::from_word(self.word()?) {
                Some(element) => *slot = element,
                None => self.good = false,
            }
        }
        Ok(&mut buf[..room as usize])
    }
}
