// Text put into a lent buffer, piece after piece; a buffer that is too short takes as much as fits.
ghost use Rattle.std.specs.Prelude.{◌≡◌, [], ◌∷◌, ◌/◌, ◌%◌, ◌<◌};
ghost use Rattle.text.specs.Put.{put_after, field, last_field, fields, rest_word, end_words, bad_line};
ghost use Rattle.text.specs.Number.{decimal};
ghost use Rattle.text.specs.ByteString.{hex_digit, hex_of, hex_word};

use crate::decimal::decimal;
use lists::copy::copy;

// A lent buffer, and the place in it where the next piece of text begins.
#[derive(Drop)]
pub struct Text<'a> {
    pub out: &'a mut [u8],
    pub at: usize,
}

impl Text<'_> {
    // Puts bytes.
    pub fn put(&mut self, src: &[u8])
        ensures { self.new ≡ put_after src.now self.old }
    {
        if self.at > self.out.len() {
            return;
        }
        let room = self.out.len() - self.at;
        if src.len() > room {
            self.at += copy(&src[..room], &mut self.out[self.at..]);
            return;
        }
        // the length of what fits may be known where it is put
        self.at += copy(src, &mut self.out[self.at..]);
    }

    // Puts a number's decimal digits.
    pub fn put_number(&mut self, n: u64)
        ensures { self.new ≡ put_after (decimal n) self.old }
    {
        let mut digits = [0u8; 20];
        let k = decimal(n, &mut digits);
        self.put(&digits[..k]);
    }

    // Puts bytes in lower-case hexadecimal, or `-` for none.
    pub fn put_bytes(&mut self, src: &[u8])
        ensures { self.new ≡ put_after (hex_word src.now) self.old }
    {
        if src.is_empty() {
            self.put(b"-");
            return;
        }
        for b in src {
            self.put(&digits_of(*b));
        }
    }

    // Puts a word that others follow: the word and a space.
    #[tactic(auto, using(crate::proofs::Puts::puts))]
    pub fn put_field(&mut self, word: &[u8])
        ensures { self.new ≡ put_after (field word.now) self.old }
    {
        self.put(word);
        self.put(b" ");
    }

    // Puts a number that others follow.
    #[tactic(auto, using(crate::proofs::Puts::puts))]
    pub fn put_number_field(&mut self, n: u64)
        ensures { self.new ≡ put_after (field (decimal n)) self.old }
    {
        self.put_number(n);
        self.put(b" ");
    }

    // Puts bytes that others follow.
    #[tactic(auto, using(crate::proofs::Puts::puts))]
    pub fn put_bytes_field(&mut self, src: &[u8])
        ensures { self.new ≡ put_after (field (hex_word src.now)) self.old }
    {
        self.put_bytes(src);
        self.put(b" ");
    }

    // Puts a number and a line feed.
    #[tactic(auto, using(crate::proofs::Puts::puts))]
    pub fn put_last_number(&mut self, last: u64)
        ensures { self.new ≡ put_after (last_field (decimal last)) self.old }
    {
        self.put_number(last);
        self.put(b"\n");
    }

    // Puts what a line that cannot be read prints.
    pub fn put_bad_line(&mut self)
        ensures { self.new ≡ put_after bad_line self.old }
    {
        self.put(b"bad line\n");
    }

    // Puts a line's last four words and its line feed: whether the bytes past the written ones are as they were, and what was remarked on the options.
    #[tactic(auto, using(crate::proofs::Puts::puts), unfolding(crate::specs::Put::fields))]
    pub fn put_end(&mut self, kept: bool, skipped: u64, used: u64, broken: u64)
        ensures { self.new ≡ put_after (fields (end_words kept skipped used broken)) self.old }
    {
        self.put_rest(kept);
        self.put_number_field(skipped);
        self.put_number_field(used);
        self.put_last_number(broken);
    }

    // Puts whether the bytes past the written ones are as they were.
    fn put_rest(&mut self, kept: bool)
        ensures { self.new ≡ put_after (field (rest_word kept)) self.old }
    {
        if kept {
            self.put(b"kept ");
        } else {
            self.put(b"changed ");
        }
    }
}

fn digits_of(b: u8) -> [u8; 2]
    ensures { result ≡ hex_digit (b / 16) ∷ hex_digit (b % 16) ∷ [] }
{
    [glyph(b / 16), glyph(b % 16)]
}

fn glyph(d: u8) -> u8
    requires { d < 16 }
    ensures { result ≡ hex_digit d }
{
    if d < 10 { 48 + d } else { 87 + d }
}
