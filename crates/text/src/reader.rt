// A file, line by line, as it comes: a line is complete as soon as its line feed was read, and more is read only where all that was read is used up.
ghost use Rattle.std.specs.Prelude.{◌≡◌, ◌-◌, ◌≤◌, false, drop};
ghost use Rattle.text.specs.Line.{before_feed};
ghost use Rattle.text.specs.Put.{laid};
ghost use Rattle.text.specs.Reader.{fresh, length_before, part_taken, is_used_up, IsPrefixLen, offered, next_taken};

use crate::line::gather;
use crate::part::first;
use std::io::Read;

// How many bytes one read may bring.
pub const INPUT: usize = 65536;

// Where the next part of the input begins and where what was read ends; how long the line is so far and whether it is complete, since one that goes on is so
// long too; how many parts may still be taken.
#[derive(Clone, Copy, Drop)]
pub struct Reader {
    pub next: usize,
    pub end: usize,
    pub len: usize,
    pub complete: bool,
    pub left: u64,
}

// Before the first read. A proved loop has to end, and the input need not: the parts are counted down from a number that no script uses up.
pub fn new_reader() -> Reader
    ensures { result ≡ fresh }
{
    Reader {
        next: 0,
        end: 0,
        len: 0,
        complete: false,
        left: u64::MAX,
    }
}

// How long the line is that goes on: after a complete one a new one begins.
#[tactic(auto, unfolding(crate::specs::Reader::length_before))]
fn length_before(r: Reader) -> usize
    ensures { result ≡ length_before r }
{
    if r.complete { 0 } else { r.len }
}

// Adds what was read, from a place on, to the line: up to its line feed, or to the end of what was read.
fn take_part(r: Reader, line: &mut [u8], read: &[u8], from: usize) -> Reader
    ensures value { result ≡ part_taken r from read.now }
    ensures line_after { line.new ≡ laid (length_before r) (before_feed (drop from read.now)) line.old }
{
    let g = gather(line, length_before(r), read, from);
    Reader {
        next: g.next,
        end: read.len(),
        len: g.len,
        complete: g.complete,
        left: r.left.saturating_sub(1),
    }
}

// Whether nothing is left of what was read.
fn is_used_up(r: Reader) -> bool
    ensures { result ≡ is_used_up r }
{
    r.end <= r.next
}

// Reads to the input's start where nothing is left, and returns how many bytes came. A read that fails counts as the end of the input.
pub fn read_if_used_up<R: Read>(source: &mut R, r: Reader, input: &mut [u8]) -> usize
    ensures prefix_len { IsPrefixLen result input.new }
    ensures input_unchanged { is_used_up r ≡ false → input.new ≡ input.old }
{
    if is_used_up(r) {
        return source.read(input).unwrap_or(0);
    }
    0
}

// Takes the next part of the line: of what is left, or else of the n bytes that a read brought. None is the end of the input: the line counts as complete,
// and no parts are left.
pub fn take_next(r: Reader, n: usize, input: &[u8], line: &mut [u8]) -> Reader
    ensures value { (result ≡ next_taken r n input.now) × (result.left ≤ r.left - 1) }
    ensures line_after { line.new ≡ laid (length_before r) (before_feed (offered r n input.now)) line.old }
{
    if !is_used_up(r) {
        let end = r.end;
        let next = r.next;
        return take_part(r, line, first(input, end), next);
    }
    if n == 0 {
        return Reader {
            next: 0,
            end: 0,
            len: length_before(r),
            complete: true,
            left: 0,
        };
    }
    take_part(r, line, first(input, n), 0)
}
