// Numbers of two and of four bytes, the high byte first.
ghost use Rattle.std.specs.Prelude.{◌≡◌, ◌+◌, ◌≤◌, length};
ghost use Rattle.segment.specs.Bytes.{word, long, word_at, long_at};

// The number of two bytes.
pub fn word16(a: u8, b: u8) -> u16
    ensures { result ≡ word a b }
{
    u16::from_be_bytes([a, b])
}

// The number of four bytes.
pub fn long32(a: u8, b: u8, c: u8, d: u8) -> u32
    ensures { result ≡ long a b c d }
{
    u32::from_be_bytes([a, b, c, d])
}

// The numbers that stand at a place.
pub(crate) fn word_at(s: &[u8], i: usize) -> u16
    requires { i + 2 ≤ length s.now }
    ensures { result ≡ word_at s.now i }
{
    word16(s[i], s[i + 1])
}

pub(crate) fn long_at(s: &[u8], i: usize) -> u32
    requires { i + 4 ≤ length s.now }
    ensures { result ≡ long_at s.now i }
{
    long32(s[i], s[i + 1], s[i + 2], s[i + 3])
}
