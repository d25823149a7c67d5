// Byte strings: hexadecimal digits, or `-` for none.
ghost use Rattle.std.specs.Prelude.{◌≡◌, ◌≤◌, true, cond, length, Some, None};
ghost use Rattle.lists.specs.Bytes.{overwrite};
ghost use Rattle.lists.specs.Lists.{every};
ghost use Rattle.text.specs.ByteString.{nibble, is_hex_digit, is_hex, pair_bytes, bytes_in, bytes_read};

use crate::word::is_word;

// Reads a byte string to the start of a buffer, and returns how many bytes it has; where the word is no byte string, or one too long, the buffer stays as it was.
pub fn read_bytes(word: &[u8], out: &mut [u8]) -> Option<usize>
    ensures value { result ≡ bytes_read word.now (length out.old) }
    ensures out_after { out.new ≡ overwrite (bytes_in word.now (length out.old)) out.old }
{
    if is_word(word, b"-") {
        return Some(0);
    }
    if !is_hex(word) || word.len() / 2 > out.len() {
        return None;
    }
    Some(decode(word, out))
}

// What a hexadecimal digit counts.
#[tactic(auto, unfolding(crate::specs::ByteString::nibble))]
fn nibble(b: u8) -> Option<u8>
    ensures { result ≡ cond (is_hex_digit b) (Some (nibble b)) None }
{
    match b {
        b'0'..=b'9' => Some(b - b'0'),
        b'A'..=b'F' => Some(b - b'A' + 10),
        b'a'..=b'f' => Some(b - b'a' + 10),
        _ => None,
    }
}

// Whether a word is pairs of digits, at least one.
fn is_hex(word: &[u8]) -> bool
    ensures { result ≡ is_hex word.now }
{
    !word.is_empty() && word.len() % 2 == 0 && all_digits(word)
}

fn all_digits(word: &[u8]) -> bool
    ensures { result ≡ every is_hex_digit word.now }
{
    word.iter().all(|b| nibble(*b).is_some())
}

// Two digits a byte.
fn decode(word: &[u8], out: &mut [u8]) -> usize
    requires word_value { every is_hex_digit word.now ≡ true }
    requires word_in_bounds { length (pair_bytes word.now) ≤ length out.old }
    ensures value { result ≡ length (pair_bytes word.now) }
    ensures out_after { out.new ≡ overwrite (pair_bytes word.now) out.old }
{
    let (pairs, _) = word.as_chunks::<2>();
    for (i, pair) in pairs.iter().enumerate() {
        out[i] = nibble(pair[0]).unwrap_or(0) * 16 + nibble(pair[1]).unwrap_or(0);
    }
    pairs.len()
}
