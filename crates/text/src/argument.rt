// A line's words, each read at its place as an argument of a call.
ghost use Rattle.std.specs.Prelude.{◌≡◌, length};
ghost use Rattle.text.specs.Word.{word_at};
ghost use Rattle.text.specs.Number.{number_as, number_in};
ghost use Rattle.text.specs.ByteString.{bytes_read};
ghost use Rattle.text.specs.Argument.{switch_in, on_in, both_in, bytes_over};

use crate::bytestring::read_bytes;
use crate::number::{Unsigned, read_number, read_unsigned};
use crate::output::MOST_OUTPUT;
use crate::word::{is_word, word_at};

// A number that its type holds: TIME and FAMILY have 64 bits, a port 16, the others 32.
pub fn number_at<T: Unsigned>(line: &[u8], place: usize) -> Option<T>
    ensures { result ≡ number_as T.made (word_at place line.now) T.MOST }
{
    read_unsigned(word_at(line, place))
}

// OUT
pub fn out_at(line: &[u8], place: usize) -> Option<u64>
    ensures { result ≡ number_in (word_at place line.now) 2048 }
{
    read_number(word_at(line, place), MOST_OUTPUT as u64)
}

#[tactic(auto, unfolding(crate::specs::Argument::switch_in))]
fn read_switch(word: &[u8], on: &[u8], off: &[u8]) -> Option<bool>
    ensures { result ≡ switch_in on.now off.now word.now }
{
    if is_word(word, on) {
        Some(true)
    } else if is_word(word, off) {
        Some(false)
    } else {
        None
    }
}

// on|off
pub fn on_at(line: &[u8], place: usize) -> Option<bool>
    ensures { result ≡ on_in (word_at place line.now) }
{
    read_switch(word_at(line, place), b"on", b"off")
}

// new|both: whether it is both.
pub fn both_at(line: &[u8], place: usize) -> Option<bool>
    ensures { result ≡ both_in (word_at place line.now) }
{
    read_switch(word_at(line, place), b"both", b"new")
}

// A byte string, to the start of a buffer: how many bytes it has.
pub fn bytes_at(line: &[u8], place: usize, out: &mut [u8]) -> Option<usize>
    ensures value { result ≡ bytes_read (word_at place line.now) (length out.old) }
    ensures out_after { out.new ≡ bytes_over place line.now out.old }
{
    read_bytes(word_at(line, place), out)
}
