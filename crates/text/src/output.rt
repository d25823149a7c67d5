// The output that a program lends to a call.
ghost use Rattle.std.specs.Prelude.{◌≡◌};
ghost use Rattle.text.specs.Output.{is_filled, is_kept};

use crate::part::rest;

// What it is filled with before the call.
pub const FILL: u8 = 0xa5;

// How many bytes of it may be lent.
pub const MOST_OUTPUT: usize = 2048;

fn is_filled(bytes: &[u8], b: u8) -> bool
    ensures { result ≡ is_filled b bytes.now }
{
    bytes.iter().all(|x| *x == b)
}

// Whether every lent byte past the written ones is as it was.
pub fn is_kept(lent: &[u8], written: usize) -> bool
    ensures { result ≡ is_kept written lent.now }
{
    is_filled(rest(lent, written), FILL)
}
