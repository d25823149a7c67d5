// Runs the published AES-128 vectors through the compiled cipher and prints a line for each: FIPS 197 appendix A.1, the 44 words
// of the key schedule, B and C.1, and SP 800-38A F.1.1. The file `stdout` has the values as published.
//
// Keys, blocks and words are numbers here, as the documents print them: the first byte is the highest.
#![tactic(auto)]

use cipher::{encrypt, expand_key};
use console::streams::{Console, Streams};

// The key of A.1, B and F.1.1.
const KEY: u128 = 0x2b7e151628aed2a6abf7158809cf4f3c;

fn print_schedule(streams: &mut Console, key: u128) {
    let schedule = expand_key(key.to_be_bytes());
    let (words, _) = schedule.as_chunks();
    for (i, word) in words.iter().enumerate() {
        let word = u32::from_be_bytes(*word);
        streams.offer_line(format_args!("FIPS 197 A.1 w[{i}] {word:08x}"));
    }
}

fn print_encrypted(streams: &mut Console, name: &str, key: u128, plaintext: u128) {
    let round_keys = expand_key(key.to_be_bytes());
    let ciphertext = u128::from_be_bytes(encrypt(round_keys, plaintext.to_be_bytes()));
    streams.offer_line(format_args!("{name} {ciphertext:032x}"));
}

fn main(rt: HostRuntime) {
    let mut streams = Streams {
        out: rt.stdout(),
        err: rt.stderr(),
    };
    print_schedule(&mut streams, KEY);
    let encrypted = [
        ("FIPS 197 B", KEY, 0x3243f6a8885a308d313198a2e0370734),
        (
            "FIPS 197 C.1",
            0x000102030405060708090a0b0c0d0e0f,
            0x00112233445566778899aabbccddeeff,
        ),
        (
            "SP 800-38A F.1.1 block 1",
            KEY,
            0x6bc1bee22e409f96e93d7e117393172a,
        ),
        (
            "SP 800-38A F.1.1 block 2",
            KEY,
            0xae2d8a571e03ac9c9eb76fac45af8e51,
        ),
        (
            "SP 800-38A F.1.1 block 3",
            KEY,
            0x30c81c46a35ce411e5fbc1191a0a52ef,
        ),
        (
            "SP 800-38A F.1.1 block 4",
            KEY,
            0xf69f2445df4f9b17ad2b417be66c3710,
        ),
    ];
    for (name, key, plaintext) in encrypted {
        print_encrypted(&mut streams, name, key, plaintext);
    }
}
