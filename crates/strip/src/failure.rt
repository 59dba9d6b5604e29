// What is said on standard error of a call of the system that failed.
use std::fmt::Formatter;
use std::io::{Print, Stderr};
use std::{fmt, io};

// What the text of an error has between its words and its number.
const NUMBER: &str = " (os error ";

// Standard error, as far as the words of an error go. The flag stays: an error is written piece by piece, and a writer has no other place to keep that the
// words have ended.
#[derive(Drop)]
struct Words {
    out: Stderr,
    ended: bool,
}

impl fmt::Write for Words {
    fn write_str(&mut self, piece: &str) -> fmt::Result {
        self.ended = self.ended || piece == NUMBER;
        if self.ended {
            return Ok(());
        }
        self.out.write_all(piece.as_bytes()).map_err(|_| fmt::Error)
    }
}

// Prints a line: what failed, a colon and the words of the error.
pub(crate) fn fail(rt: &HostRuntime, what: &str, error: io::Error) -> io::Result<()> {
    eprint!(rt; "{what}: ")?;
    let mut words = Formatter::new(Words {
        out: rt.stderr(),
        ended: false,
    });
    // Where the words cannot be written, neither can the end of the line.
    let _ = words.write(&error);
    eprintln!(rt; "")
}
