// The parts of a call: cipher, checksum and options.
use crate::data;
use cipher::{encrypt, expand_key};
use segment::checksum::add_bytes;
use segment::options::{Codings, FastOpenOption, Remarks, read_options};
use text::part::first;

// The first eight bytes, the highest first.
fn leading(block: [u8; 16]) -> u64 {
    u64::from_be_bytes(*block.first_chunk().unwrap())
}

// Blocks, each the encryption of the one before.
pub(crate) fn block(count: u64) -> u64 {
    let round_keys = expand_key(data::key());
    let start: [u8; 16] = [
        0, 17, 34, 51, 68, 85, 102, 119, 136, 153, 170, 187, 204, 221, 238, 255,
    ];
    leading((0..count).fold(start, |b, _| encrypt(round_keys, b)))
}

// The last round key of a schedule.
fn last_round_key(schedule: &[u8; 176]) -> [u8; 16] {
    *schedule.last_chunk().unwrap()
}

// Keys, each the last round key of the one before. (A fold would copy each key once more.)
pub(crate) fn expand(count: u64) -> u64 {
    let mut k = data::key();
    for _ in 0..count {
        k = last_round_key(&expand_key(k));
    }
    leading(k)
}

// One sum over the data, added again and again.
pub(crate) fn checksum(count: u64, payload: usize) -> u64 {
    let bytes = data::bytes();
    let part = first(&bytes, payload);
    u64::from((0..count).fold(0, |sum, _| add_bytes(sum, part)))
}

fn cookie_part(fast: FastOpenOption) -> u64 {
    match fast {
        FastOpenOption::Absent => 0,
        FastOpenOption::Request(_) => 0,
        FastOpenOption::Cookie { at, len, .. } => (at as u64).wrapping_add(len as u64),
    }
}

fn remarks_part(remarks: Remarks) -> u64 {
    (remarks.used as u64)
        .wrapping_add(remarks.broken as u64)
        .wrapping_add(remarks.skipped as u64)
}

// What is read of an area, in one number.
fn options_part(area: &[u8; 32]) -> u64 {
    let found = read_options(Codings::NewOnly, area);
    let options = found.options;
    options
        .mss
        .map_or(0, u64::from)
        .wrapping_add(cookie_part(options.fast))
        .wrapping_add(remarks_part(found.remarks))
}

// An area of five options and padding, with another segment size each turn.
pub(crate) fn options(count: u64) -> u64 {
    let mut area: [u8; 32] = [
        2, 4, 5, 180, 4, 2, 8, 10, 1, 2, 3, 4, 5, 6, 7, 8, 1, 3, 3, 7, 34, 10, 161, 162, 163, 164,
        165, 166, 167, 168, 1, 1,
    ];
    (0..count).fold(0, |digest: u64, turn| {
        area[3] = (turn % 256) as u8;
        digest.wrapping_add(options_part(&area))
    })
}
