// Lines: how long one may be, which print nothing, and how one is gathered from what is read.
ghost use Rattle.std.specs.Prelude.{◌≡◌, drop};
ghost use Rattle.text.specs.Line.{is_silent, length_with, before_feed, gathered};
ghost use Rattle.text.specs.Put.{laid};

use crate::part::{first, rest};
use crate::put::Text;
use crate::scan::find;

// The longest line that is read, its line feed not counted.
pub const LONGEST: usize = 8192;

// The most bytes that a word of a line stands for, at two digits each.
pub const MOST_BYTES: usize = LONGEST / 2;

// What is said to a line: nothing, that it is bad, or the number that its call returned, 0 where it is done.
#[derive(Clone, Copy, Drop)]
pub enum Reply {
    Silent,
    Bad,
    Number(u8),
}

// The length of a line that had `len` bytes and gets `more`. One byte too many counts like any number of them.
fn length_with(len: usize, more: usize) -> usize
    ensures { result ≡ length_with len more }
{
    len.saturating_add(more).min(LONGEST + 1)
}

// Whether a line prints nothing: it is empty or a comment.
#[tactic(auto, unfolding(crate::specs::Line::is_silent))]
pub fn is_silent(line: &[u8]) -> bool
    ensures { result ≡ is_silent line.now }
{
    matches!(line, [] | [b'#', ..])
}

// What a step through the input comes to: where it goes on, how long the line is, and whether the line is complete.
#[derive(Clone, Copy, Drop)]
pub struct Gathered {
    pub next: usize,
    pub len: usize,
    pub complete: bool,
}

// Adds what the input has, from a place on, to a line of `len` bytes: up to its line feed, or to the end of the input.
#[tactic(auto, using(crate::proofs::Puts::puts))]
pub fn gather(line: &mut [u8], len: usize, input: &[u8], from: usize) -> Gathered
    ensures value { result ≡ gathered len from input.now }
    ensures line_after { line.new ≡ laid len (before_feed (drop from input.now)) line.old }
{
    let left = rest(input, from);
    let feed = find(left, b'\n');
    let size = feed.unwrap_or(left.len());
    Text { out: line, at: len }.put(first(left, size));
    let all = length_with(len, size);
    match feed {
        Some(_) => Gathered {
            next: from + size + 1,
            len: all,
            complete: true,
        },
        None => Gathered {
            next: input.len(),
            len: all,
            complete: false,
        },
    }
}
