// A line that is gathered before it is printed, so that it goes out whole.
ghost use Rattle.std.specs.Prelude.{◌≡◌, ◌≤◌, ℕ, List, take, Some, IfSome, IsTrue};
ghost use Rattle.std.specs.Fmt.{with_newline};
ghost use Rattle.std.specs.Io.KnownBytes.{Appends};

use crate::streams::Streams;
use std::fmt::Display;
use std::io;
use std::io::Write;

// As long as a line can be, with its line feed.
pub const LONGEST_LINE: usize = 128;

// The start of a line.
#[derive(Drop)]
struct Line {
    text: [u8; LONGEST_LINE],
    end: usize,
    ghost within: { end ≤ 128 },
}

impl Write for Line {
    ghost contents = { λ l. Some (take l.end l.text) };

    fn write(&mut self, buf: &[u8]) -> io::Result<usize> {
        let n = buf.len().min(LONGEST_LINE - self.end);
        let end = self.end + n;
        self.text[self.end..end].copy_from_slice(&buf[..n]);
        self.end = end;
        Ok(n)
    }

    fn flush(&mut self) -> io::Result<()> {
        Ok(())
    }
}

impl<W: Write, E: Write> Streams<W, E> {
    // Writes a line to standard output, all of it at once, if it can; one that is longer than the longest is not written.
    pub fn offer_line<D: Display + Drop>(&mut self, line: D) -> bool
        ensures printed { IsTrue result → (text : List ℕ) × (Appends (W.contents self.old.out) (W.contents self.new.out) text × IfSome (with_newline (D.output line)) (λ t. text ≡ t)) }
        ensures err_kept { self.new.err ≡ self.old.err }
    {
        let mut gathered = Line {
            text: [0; LONGEST_LINE],
            end: 0,
        };
        if writeln!(gathered, "{line}").is_err() {
            return false;
        }
        self.offer(&gathered.text[..gathered.end])
    }
}
