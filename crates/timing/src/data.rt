// The built-in data.
use segment::checksum::add_bytes;
use segment::write::{Opening, write_opening};
use std::array;
use text::part::first_mut;

// The longest segment.
pub(crate) const LONGEST: usize = 1520;

pub(crate) const OWN_PORT: u16 = 443;

pub(crate) const PEER_PORT: u16 = 40000;

// The peer's initial number.
pub(crate) const IRS: u32 = 1000;

pub(crate) const MSS: u16 = 1460;

pub(crate) fn key() -> [u8; 16] {
    [0, 1, 2, 3, 4, 5, 6, 7, 8, 9, 10, 11, 12, 13, 14, 15]
}

// The key after it.
pub(crate) fn next_key() -> [u8; 16] {
    [
        16, 17, 18, 19, 20, 21, 22, 23, 24, 25, 26, 27, 28, 29, 30, 31,
    ]
}

pub(crate) fn own() -> [u8; 4] {
    [192, 0, 2, 2]
}

// The peer's address. That LIVE is at most 64 is known only when the program runs, so no call is compiled for this address alone.
pub(crate) fn peer(live: u64) -> [u8; 4] {
    [192, 0, 2, (1 + live / 100 % 2) as u8]
}

// Another address.
pub(crate) fn other_peer(live: u64) -> [u8; 4] {
    [192, 0, 2, (9 + live / 100 % 2) as u8]
}

// Data, as many bytes of it as the longest segment has: byte i is 7 i + 3 modulo 256.
pub(crate) fn bytes() -> [u8; LONGEST] {
    array::from_fn(|i| ((i % 256 * 7 + 3) % 256) as u8)
}

// Writes an opening of the peer's with a Fast Open option: a cookie, or none to ask for one. Answers the part that it takes.
pub(crate) fn put_opening<'a>(
    out: &'a mut [u8; LONGEST],
    peer: &[u8; 4],
    port: u16,
    cookie: &[u8],
    payload: &[u8],
) -> &'a mut [u8] {
    let opening = Opening {
        source: port,
        dest: OWN_PORT,
        iss: IRS,
        mss: MSS,
        fast: true,
    };
    let n = write_opening(out, peer, &own(), opening, cookie, payload);
    first_mut(out, n)
}

// A completion's header of 20 bytes: flag ACK, window 65,535, urgent 0.
fn header(seq: u32, ack: u32, check: u16) -> [u8; 20] {
    let mut header = [0u8; 20];
    header[..2].copy_from_slice(&PEER_PORT.to_be_bytes());
    header[2..4].copy_from_slice(&OWN_PORT.to_be_bytes());
    header[4..8].copy_from_slice(&seq.to_be_bytes());
    header[8..12].copy_from_slice(&ack.to_be_bytes());
    header[12..16].copy_from_slice(&[80, 16, 255, 255]);
    header[16..18].copy_from_slice(&check.to_be_bytes());
    header
}

// A completion of the peer's with the right checksum: over IPv4's pseudo-header (protocol 6, length 20) and the header.
pub(crate) fn completion(peer: &[u8; 4], seq: u32, ack: u32) -> [u8; 20] {
    let pseudo = add_bytes(add_bytes(26, peer), &own());
    let sum = add_bytes(pseudo, &header(seq, ack, 0));
    header(seq, ack, 65535 - sum)
}
