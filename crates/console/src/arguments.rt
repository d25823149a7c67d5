// The program's arguments; the first of them is number 1.
ghost use Rattle.std.specs.Prelude.{◌≤◌, length, IfSome};

use std::env::{Env, FillError};

// As long as a file's name can be.
pub const LONGEST_NAME: usize = 4096;

// Puts an argument to the start of a buffer, and returns its length, if there is one; the length is 0 where it is longer than the buffer.
pub fn argument<R: Env>(rt: &R, place: usize, buffer: &mut [u8]) -> Option<usize>
    ensures { IfSome result (λ n. n ≤ length buffer.new) }
{
    match rt.arg(place, buffer) {
        Ok(n) => Some(n),
        Err(FillError::TooLong) => Some(0),
        Err(FillError::NotPresent) => None,
    }
}
