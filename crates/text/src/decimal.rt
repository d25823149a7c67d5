// A number as decimal digits.
ghost use Rattle.std.specs.Prelude.{◌≡◌, length, take, drop};
ghost use Rattle.text.specs.Number.{decimal};

use lists::copy::copy;

// How many digits a number below 2^64 has at most.
pub const MOST_DIGITS: usize = 20;

// Puts a number's digits to the start of a buffer, and returns how many there are.
pub fn decimal(n: u64, digits: &mut [u8; MOST_DIGITS]) -> usize
    ensures value { result ≡ length (decimal n) }
    ensures digits_after { take result digits.new ≡ decimal n }
    ensures rest { drop result digits.new ≡ drop result digits.old }
{
    // The digits come from the last to the first, and the number says how many.
    let mut back = [0u8; MOST_DIGITS];
    let mut i = MOST_DIGITS;
    let mut left = n;
    while left > 9 {
        i -= 1;
        back[i] = 48 + (left % 10) as u8;
        left /= 10;
    }
    i -= 1;
    back[i] = 48 + left as u8;
    copy(&back[i..], digits)
}
