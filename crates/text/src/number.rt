// Decimal numbers.
ghost use Rattle.std.specs.Prelude.{◌≡◌, ◌≤◌, ℕ};
ghost use Rattle.text.specs.Number.{digit, number_as, number_in};

// The types of numbers that a word can say.
pub trait Unsigned: Sized {
    ghost MOST: { ℕ };

    ghost made: { ℕ → Self };

    // The greatest.
    const MOST: u64;

    // A number as one of this type, which holds it up to the greatest.
    fn made(n: u64) -> Self
        ensures { n ≤ MOST → result ≡ made n };
}

impl Unsigned for u16 {
    ghost MOST = { 65535 };

    ghost made = { λ n. n };

    const MOST: u64 = 0xffff;

    fn made(n: u64) -> u16 {
        (n & 0xffff) as u16
    }
}

impl Unsigned for u32 {
    ghost MOST = { 4294967295 };

    ghost made = { λ n. n };

    const MOST: u64 = 0xffffffff;

    fn made(n: u64) -> u32 {
        (n & 0xffffffff) as u32
    }
}

impl Unsigned for u64 {
    ghost MOST = { 18446744073709551615 };

    ghost made = { λ n. n };

    const MOST: u64 = u64::MAX;

    fn made(n: u64) -> u64 {
        n
    }
}

// The number that a word is, if it is at most `most`. Leading zeros are allowed.
pub fn read_number(word: &[u8], most: u64) -> Option<u64>
    ensures { result ≡ number_in word.now most }
{
    if word.is_empty() {
        return None;
    }
    let mut value: u64 = 0;
    for b in word {
        let d = digit(*b)?;
        value = value.checked_mul(10)?.checked_add(d)?;
        if value > most {
            return None;
        }
    }
    Some(value)
}

// The number that a word is, if its type holds it.
pub fn read_unsigned<T: Unsigned>(word: &[u8]) -> Option<T>
    ensures { result ≡ number_as T.made word.now T.MOST }
{
    let n = read_number(word, T::MOST)?;
    Some(T::made(n))
}

// What a decimal digit counts.
fn digit(b: u8) -> Option<u64>
    ensures { result ≡ digit b }
{
    match b {
        b'0'..=b'9' => Some((b - b'0') as u64),
        _ => None,
    }
}
