// The checks of the calls, in document 01's order.
ghost use Rattle.std.specs.Prelude.{◌≡◌, ◌++◌};
ghost use Rattle.segment.specs.Refusal.{refusal};
ghost use Rattle.segment.specs.Header.{fields_of};
ghost use Rattle.endpoint.specs.Checks.{is_untimely};
ghost use Rattle.client.specs.Refusals.{is_mss, is_between, pair_checks, open_checks, wire_checks, reply_checks, answer_checks, reply_from};

use crate::outcome::Attempt;
use crate::state::Memory;
use endpoint::address::is_address;
use endpoint::checks::check_name;
use segment::checksum::is_checksum_right;
use segment::header::{Header, is_syn_ack, read_header};
use segment::options::{LEAST_MSS, MOST_MSS};
use segment::refusal::Refusal;
use segment::sequence::acknowledged_bytes;
use segment::write::LONGEST_OPENING;

// The most bytes of data that an attempt may have sent.
pub const MOST_SENT: u32 = 1460;

// 13, 5 and 2, the last for both addresses.
fn check_pair(m: &Memory, time: u64, own: &[u8], server: &[u8]) -> Result<(), Refusal>
    ensures { result ≡ refusal (pair_checks m.now.started m.now.family (is_untimely m.now.clock time) own.now server.now) }
{
    check_name(m.started, m.family, m.clock, time, own)?;
    if !is_address(m.family, server) {
        return Err(Refusal::Address);
    }
    Ok(())
}

#[tactic(auto, unfolding(crate::specs::Refusals::is_mss))]
fn is_mss(mss: u32) -> bool
    ensures { result ≡ is_mss mss }
{
    (LEAST_MSS..=MOST_MSS).contains(&mss)
}

// Of an opening: 13, 5, 2, 11 and 12.
pub(crate) fn check_open(
    m: &Memory,
    time: u64,
    own: &[u8],
    server: &[u8],
    mss: u32,
    out_len: usize,
) -> Result<(), Refusal>
    ensures { result ≡ refusal (open_checks m.now.started m.now.family (is_untimely m.now.clock time) own.now server.now mss out_len) }
{
    check_pair(m, time, own, server)?;
    if out_len < LONGEST_OPENING {
        return Err(Refusal::Output);
    }
    if !is_mss(mss) {
        return Err(Refusal::Range);
    }
    Ok(())
}

// Whether a segment goes from the attempt's server port to its own.
#[tactic(auto, unfolding(crate::specs::Refusals::is_between))]
fn is_between(a: Attempt, h: Header) -> bool
    ensures { result ≡ is_between a h }
{
    h.source == a.dest && h.dest == a.source
}

// 6, 12 and 10; else how many bytes are acknowledged.
fn check_reply(a: Attempt, h: Header) -> Result<u32, Refusal>
    ensures { result ≡ reply_from (refusal (reply_checks a h)) a h }
{
    if !is_syn_ack(h.flags) {
        return Err(Refusal::Flags);
    }
    if MOST_SENT < a.sent {
        return Err(Refusal::Range);
    }
    let n = acknowledged_bytes(a.iss, h.ack);
    if a.sent < n {
        return Err(Refusal::Sequence);
    }
    Ok(n)
}

// 1, 3, 4, 6, 12 and 10.
#[tactic(auto, using(segment::proofs::Malformed::ill_shaped, segment::proofs::Malformed::well_shaped))]
fn check_segment(own: &[u8], server: &[u8], a: Attempt, seg: &[u8]) -> Result<u32, Refusal>
    ensures { result ≡ reply_from (refusal (wire_checks own.now server.now a seg.now ++ reply_checks a (fields_of seg.now))) a (fields_of seg.now) }
{
    let h = read_header(seg).ok_or(Refusal::Format)?;
    if !is_checksum_right(server, own, seg) {
        return Err(Refusal::Checksum);
    }
    if !is_between(a, h) {
        return Err(Refusal::Port);
    }
    check_reply(a, h)
}

// Of an answer: 13, 5, 2, 1, 3, 4, 6, 12 and 10.
pub(crate) fn check_answer(
    m: &Memory,
    time: u64,
    own: &[u8],
    server: &[u8],
    a: Attempt,
    seg: &[u8],
) -> Result<u32, Refusal>
    ensures { result ≡ reply_from (refusal (answer_checks m.now.started m.now.family (is_untimely m.now.clock time) own.now server.now a seg.now)) a (fields_of seg.now) }
{
    check_pair(m, time, own, server)?;
    check_segment(own, server, a, seg)
}
