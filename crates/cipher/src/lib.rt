// AES-128 of FIPS 197: the key expansion, and the encryption of one block, under one key schedule or under two.
//
// The state, four columns of four bytes, and the key schedule of 176 bytes pass by value through each round. To spare copies, the
// functions inside a round are lent the schedule. Numbers in brackets are sections of FIPS 197.
#![tactic(auto)]

mod sbox;
mod ttable;

ghost use Rattle.std.specs.Prelude.{◌≡◌, cond, ◌-◌, ◌%◌, ◌<◌, ◌≤◌, eqb, take};
ghost use Rattle.lists.specs.Bytes.{same_bytes};
ghost use Rattle.cipher.specs.Cipher.{four, column, word, xor_word, from_block, to_block, sub_bytes, shift_rows, mix_byte, mix_columns, add_round_key, rounds, cipher};
ghost use Rattle.cipher.specs.KeyExpansion.{rot_word, sub_word, rcon, temp, key_expansion};
ghost use Rattle.cipher.specs.Packed.{bytes_of};

use sbox::sub_byte;
use ttable::share_of;

// Words

fn xor_word(a: [u8; 4], b: [u8; 4]) -> [u8; 4]
    ensures { result ≡ xor_word a b }
{
    [a[0] ^ b[0], a[1] ^ b[1], a[2] ^ b[2], a[3] ^ b[3]]
}

fn rot_word(w: [u8; 4]) -> [u8; 4]
    ensures { result ≡ rot_word w }
{
    [w[1], w[2], w[3], w[0]]
}

fn sub_word(w: [u8; 4]) -> [u8; 4]
    ensures { result ≡ sub_word w }
{
    w.map(sub_byte)
}

// Word i of a key schedule.
fn word_at(w: &[u8; 176], i: usize) -> [u8; 4]
    requires { i < 44 }
    ensures { result ≡ word w.now i }
{
    let at = i * 4;
    [w[at], w[at + 1], w[at + 2], w[at + 3]]
}

// The state (3.4)

fn from_block(b: [u8; 16]) -> [[u8; 4]; 4]
    ensures { result ≡ from_block b }
{
    [
        [b[0], b[1], b[2], b[3]],
        [b[4], b[5], b[6], b[7]],
        [b[8], b[9], b[10], b[11]],
        [b[12], b[13], b[14], b[15]],
    ]
}

fn to_block(s: [[u8; 4]; 4]) -> [u8; 16]
    ensures { result ≡ to_block s }
{
    [
        s[0][0], s[0][1], s[0][2], s[0][3], s[1][0], s[1][1], s[1][2], s[1][3], s[2][0], s[2][1],
        s[2][2], s[2][3], s[3][0], s[3][1], s[3][2], s[3][3],
    ]
}

// SubBytes (5.1.1)
#[tactic(auto, using(crate::proofs::Words::columns_are))]
fn sub_bytes(s: [[u8; 4]; 4]) -> [[u8; 4]; 4]
    ensures { result ≡ sub_bytes s }
{
    s.map(sub_word)
}

// ShiftRows (5.1.2)
fn shift_rows(s: [[u8; 4]; 4]) -> [[u8; 4]; 4]
    ensures { result ≡ shift_rows s }
{
    [
        [s[0][0], s[1][1], s[2][2], s[3][3]],
        [s[1][0], s[2][1], s[3][2], s[0][3]],
        [s[2][0], s[3][1], s[0][2], s[1][3]],
        [s[3][0], s[0][1], s[1][2], s[2][3]],
    ]
}

// SubBytes and MixColumns (5.1.3) of a column in one, on its four bytes in one u32, byte 0 the lowest.

// Byte r + 1 in the place of byte r.
#[tactic(auto, using(crate::proofs::Packed::rotated))]
fn rotate(p: u32) -> u32
    ensures { bytes_of result ≡ rot_word (bytes_of p) }
{
    p.rotate_right(8)
}

// In row r a byte adds the same as in row 0, r places on; that is 4 - r places back, of which the inner rows, 2 and 1, share two.
fn sub_mix_column(w: [u8; 4]) -> [u8; 4]
    ensures { result ≡ four (mix_byte (sub_word w)) }
{
    let outer = share_of(w[0]) ^ rotate(share_of(w[3]));
    let inner = share_of(w[2]) ^ rotate(share_of(w[1]));
    (outer ^ rotate(rotate(inner))).to_le_bytes()
}

#[tactic(auto, using(crate::proofs::Words::columns_are))]
fn sub_mix_columns(s: [[u8; 4]; 4]) -> [[u8; 4]; 4]
    ensures { result ≡ mix_columns (sub_bytes s) }
{
    s.map(sub_mix_column)
}

// AddRoundKey (5.1.4)
#[tactic(auto, unfolding(crate::specs::Cipher::add_round_key))]
fn add_round_key(s: [[u8; 4]; 4], w: &[u8; 176], n: usize) -> [[u8; 4]; 4]
    requires { n ≤ 10 }
    ensures { result ≡ add_round_key w.now n s }
{
    let i = n * 4;
    [
        xor_word(s[0], word_at(w, i)),
        xor_word(s[1], word_at(w, i + 1)),
        xor_word(s[2], word_at(w, i + 2)),
        xor_word(s[3], word_at(w, i + 3)),
    ]
}

// Cipher (5.1)

// Round n, from 1 to 9. ShiftRows comes first, since SubBytes is the same for every byte.
fn round(s: [[u8; 4]; 4], round_keys: [u8; 176], n: usize) -> [[u8; 4]; 4]
    requires { n ≤ 10 }
    ensures { result ≡ add_round_key round_keys n (mix_columns (shift_rows (sub_bytes s))) }
{
    add_round_key(sub_mix_columns(shift_rows(s)), &round_keys, n)
}

// Rounds 1 to 9. No loop: where the number of a round is a constant, its round key is read in place and the schedule is not copied.
#[tactic(auto, unfolding(crate::specs::Cipher::rounds))]
fn nine_rounds(s: [[u8; 4]; 4], round_keys: [u8; 176]) -> [[u8; 4]; 4]
    ensures { result ≡ rounds round_keys 9 s }
{
    let s1 = round(s, round_keys, 1);
    let s2 = round(s1, round_keys, 2);
    let s3 = round(s2, round_keys, 3);
    let s4 = round(s3, round_keys, 4);
    let s5 = round(s4, round_keys, 5);
    let s6 = round(s5, round_keys, 6);
    let s7 = round(s6, round_keys, 7);
    let s8 = round(s7, round_keys, 8);
    round(s8, round_keys, 9)
}

// Round 10, which mixes no columns.
fn last_round(s: [[u8; 4]; 4], round_keys: [u8; 176]) -> [[u8; 4]; 4]
    ensures { result ≡ add_round_key round_keys 10 (shift_rows (sub_bytes s)) }
{
    add_round_key(shift_rows(sub_bytes(s)), &round_keys, 10)
}

// The encryption of one block under a key schedule: round key n is its bytes 16 n to 16 n + 15, as `expand_key` lays them out. Any other
// 176 bytes are taken as a schedule too.
#[tactic(auto, unfolding(crate::specs::Cipher::cipher))]
pub fn encrypt(round_keys: [u8; 176], block: [u8; 16]) -> [u8; 16]
    ensures { result ≡ cipher round_keys block }
{
    let s = add_round_key(from_block(block), &round_keys, 0);
    let s9 = nine_rounds(s, round_keys);
    to_block(last_round(s9, round_keys))
}

// The first half of a block

pub fn first_half(block: [u8; 16]) -> [u8; 8]
    ensures { result ≡ take 8 block }
{
    *block.first_chunk().unwrap()
}

// Whether these bytes are that half. Every byte is compared, with no early exit.
pub fn is_half(given: &[u8], half: [u8; 8]) -> bool
    ensures { result ≡ same_bytes given.now half }
{
    if given.len() != half.len() {
        return false;
    }
    let mut same = true;
    for (a, b) in given.iter().zip(half.iter()) {
        same &= a == b;
    }
    same
}

// A block under two key schedules

// Its two encryptions. Where the first settles it, the second is not made, and `second` is the first again.
#[derive(Clone, Copy, Drop)]
pub struct Encrypted {
    pub first: [u8; 16],
    pub second: [u8; 16],
}

// Encrypts a block under one key schedule and, where the first half of that is not `given`, under another.
pub fn encrypt_until(
    given: &[u8],
    first: [u8; 176],
    second: [u8; 176],
    block: [u8; 16],
) -> Encrypted
    ensures { result ≡ record { first = cipher «first» block; second = cond (same_bytes given.now (take 8 (cipher «first» block))) (cipher «first» block) (cipher «second» block) } }
{
    let one = encrypt(first, block);
    let two = if is_half(given, first_half(one)) {
        one
    } else {
        encrypt(second, block)
    };
    Encrypted {
        first: one,
        second: two,
    }
}

// KeyExpansion (5.2)

static RCON: [u8; 10] = [0x01, 0x02, 0x04, 0x08, 0x10, 0x20, 0x40, 0x80, 0x1b, 0x36];

fn round_constant(i: usize) -> [u8; 4]
    requires { (1 ≤ i) × (i ≤ 10) }
    ensures { result ≡ rcon i }
{
    [RCON[i - 1], 0, 0, 0]
}

// SubWord(RotWord(w)), with Rcon[i] added.
fn key_core(w: [u8; 4], i: usize) -> [u8; 4]
    requires { (1 ≤ i) × (i ≤ 10) }
    ensures { result ≡ xor_word (sub_word (rot_word w)) (rcon i) }
{
    xor_word(sub_word(rot_word(w)), round_constant(i))
}

// Word i, from the words before it.
#[tactic(auto, unfolding(crate::specs::KeyExpansion::temp))]
fn next_word(w: &[[u8; 4]; 44], i: usize) -> [u8; 4]
    requires { (4 ≤ i) × (i < 44) }
    ensures { result ≡ xor_word (column w.now (i - 4)) (temp (eqb (i % 4) 0) (column w.now (i - 1)) i) }
{
    let before = w[i - 1];
    let temp = if i % 4 == 0 {
        key_core(before, i / 4)
    } else {
        before
    };
    xor_word(w[i - 4], temp)
}

// The key schedule of a key: 44 words, four for the first AddRoundKey and four for each round.
pub fn expand_key(key: [u8; 16]) -> [u8; 176]
    ensures { result ≡ key_expansion key }
{
    let mut w = [[0u8; 4]; 44];
    w[..4].copy_from_slice(key.as_chunks().0);
    for i in 4..44 {
        let word = next_word(&w, i);
        w[i] = word;
    }
    *w.as_flattened().first_chunk().unwrap()
}
