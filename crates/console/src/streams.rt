// Standard output and standard error, or what stands for them.
ghost use Rattle.std.specs.Prelude.{◌≤◌, length, IsTrue};
ghost use Rattle.std.specs.Io.KnownBytes.{Appends};

use std::io;
use std::io::{Error, Stderr, Stdout, Write};

#[derive(Clone, Copy, Drop)]
pub struct Streams<W, E> {
    pub out: W,
    pub err: E,
}

pub type Console = Streams<Stdout, Stderr>;

// Writes to whatever has `Write`, if it can.
pub fn offer<W: Write>(out: &mut W, text: &[u8]) -> bool
    ensures { IsTrue result → Appends (W.contents out.old) (W.contents out.new) text.now }
{
    out.write_all(text).is_ok()
}

// How long the text of an error is, without the number that the library puts behind it; zeros follow.
fn text_end(text: &[u8]) -> usize
    ensures { result ≤ length text.now }
{
    for (i, b) in text.iter().enumerate() {
        if *b == 0 || text[i..].starts_with(b" (os error ") {
            return i;
        }
    }
    text.len()
}

impl<W: Write, E: Write> Streams<W, E> {
    ghost use Rattle.std.specs.Prelude.{◌≡◌, ◌++◌, ◌∷◌, [], ℕ, List, true, IsTrue, IsOk};
    ghost use Rattle.std.specs.Io.KnownBytes.{Appends};

    // Writes to standard error, if it can.
    pub fn tell(&mut self, text: &[u8]) -> bool
        ensures told { IsTrue result → Appends (E.contents self.old.err) (E.contents self.new.err) text.now }
        ensures out_kept { self.new.out ≡ self.old.out }
    {
        self.err.write_all(text).is_ok()
    }

    // Writes to standard output, if it can.
    pub fn offer(&mut self, text: &[u8]) -> bool
        ensures printed { IsTrue result → Appends (W.contents self.old.out) (W.contents self.new.out) text.now }
        ensures err_kept { self.new.err ≡ self.old.err }
    {
        offer(&mut self.out, text)
    }

    // Writes to standard output, or answers why it cannot.
    pub fn write_all(&mut self, text: &[u8]) -> io::Result<()>
        ensures printed { IsOk result → Appends (W.contents self.old.out) (W.contents self.new.out) text.now }
        ensures err_kept { self.new.err ≡ self.old.err }
    {
        self.out.write_all(text)
    }

    // Tells what failed, as the caller names it, and why, if it can.
    pub fn fail(&mut self, what: &[u8], e: Error) -> bool
        ensures told { IsTrue result → (why : List ℕ) × Appends (E.contents self.old.err) (E.contents self.new.err) (what.now ++ ((58 ∷ 32 ∷ []) ++ (why ++ (10 ∷ [])))) }
        ensures out_kept { self.new.out ≡ self.old.out }
    {
        let mut text = [0u8; 256];
        let mut left: &mut [u8] = &mut text;
        let _ = write!(left, "{e}");
        let end = text_end(&text);
        if !self.tell(what) {
            return false;
        }
        if !self.tell(b": ") {
            return false;
        }
        if !self.tell(&text[..end]) {
            return false;
        }
        self.tell(b"\n")
    }

    // Prints, or tells that it cannot be done; answers whether it was.
    pub fn print(&mut self, text: &[u8]) -> bool
        ensures printed { IsTrue result → Appends (W.contents self.old.out) (W.contents self.new.out) text.now }
        ensures quiet { IsTrue result → self.new.err ≡ self.old.err }
    {
        match self.write_all(text) {
            Ok(()) => true,
            Err(e) => {
                self.fail(b"standard output", e);
                false
            }
        }
    }
}
