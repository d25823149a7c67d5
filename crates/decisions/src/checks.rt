// The checks of the calls, in document 01's order; 13, 5 and 2 are endpoint's.
ghost use Rattle.std.specs.Prelude.{◌≡◌, ◌++◌};
ghost use Rattle.segment.specs.Refusal.{refusal};
ghost use Rattle.segment.specs.Header.{fields_of};
ghost use Rattle.endpoint.specs.Checks.{is_untimely, timely, addressed};
ghost use Rattle.protocol.specs.Table.{is_free};
ghost use Rattle.protocol.specs.Refusals.{in_range, is_releasable, repeats, completes, resets, expected, output_checks, sequence_checks, wire_checks};
ghost use Rattle.decisions.specs.Received.{received};
ghost use Rattle.decisions.specs.Parts.{opening_check, opening_checks, has_kind, later_checks};

use endpoint::address::size_of;
use endpoint::checks::check_name;
use protocol::slots::{Slot, Status};
use protocol::state::{
    LEAST_SHARE, LocalEndpoint, MOST_EARLY_ROOM, MOST_HOLD, MOST_LIMIT, MOST_SHARE, Settings,
};
use segment::checksum::is_checksum_right;
use segment::header::{Header, Kind, read_header};
use segment::options::{LEAST_MSS, MOST_MSS};
use segment::refusal::Refusal;
use segment::sequence::{in_window, next_after};
use segment::write::LONGEST_SYN_ACK;
use table::slot::{accepted_with, is_established, is_free, is_waiting};

// 13, 5, 2 and 11: the longest SYN-ACK has 36 bytes.
pub fn check_output(
    local: LocalEndpoint,
    clock: u64,
    time: u64,
    addr: &[u8],
    out_len: usize,
) -> Result<(), Refusal>
    ensures { result ≡ refusal (timely local.started (is_untimely clock time) ++ addressed local.family addr.now ++ output_checks out_len) }
{
    check_name(local.started, local.family, clock, time, addr)?;
    if out_len < LONGEST_SYN_ACK {
        return Err(Refusal::Output);
    }
    Ok(())
}

// 13, 5, 2, 11, 1, 3 and 4, of a segment of any kind.
pub fn receive(
    local: LocalEndpoint,
    clock: u64,
    time: u64,
    src: &[u8],
    seg: &[u8],
    out_len: usize,
) -> Result<Header, Refusal>
    ensures { result ≡ received (refusal (wire_checks local (is_untimely clock time) src.now seg.now out_len)) (fields_of seg.now) }
{
    check_output(local, clock, time, src, out_len)?;
    let h = read_header(seg).ok_or(Refusal::Format)?;
    let n = size_of(local.family);
    if !is_checksum_right(src, &local.own[..n], seg) {
        return Err(Refusal::Checksum);
    }
    if h.dest != local.port {
        return Err(Refusal::Port);
    }
    Ok(h)
}

// Whether an opening repeats the one that the slot was made for.
#[tactic(auto, unfolding(protocol::specs::Refusals::repeats))]
fn is_repeat(s: Slot, h: Header) -> bool
    ensures { result ≡ repeats s h }
{
    is_waiting(s.status) && h.seq == s.irs
}

// The sequence number that the peer's next segment is to have.
fn expected_of(s: Slot) -> u32
    ensures { result ≡ expected s }
{
    next_after(s.irs, accepted_with(s.status))
}

// Whether a completion's numbers are admitted, for this slot.
#[tactic(auto, unfolding(protocol::specs::Refusals::completes))]
fn admits_completion(s: Slot, h: Header) -> bool
    ensures { result ≡ completes s h }
{
    in_window(expected_of(s), h.seq) && h.ack == next_after(s.iss, 0)
}

// Whether a reset's number is admitted, for this slot.
#[tactic(auto, unfolding(protocol::specs::Refusals::resets))]
fn admits_reset(s: Slot, h: Header) -> bool
    ensures { result ≡ resets s h }
{
    h.seq == expected_of(s)
}

// An opening that is not refused repeats the one that the slot was made for, or is new.
#[derive(Clone, Copy, Drop)]
pub enum OpeningKind {
    Repeat,
    New,
}

// 7 and 8, from the peer's slot and whether any slot is free.
pub fn check_opening(slot: Slot, vacant: bool, h: Header) -> Result<OpeningKind, Refusal>
    ensures { result ≡ opening_check (refusal (opening_checks slot vacant h)) (is_free slot.status) }
{
    if is_free(slot.status) {
        if vacant {
            return Ok(OpeningKind::New);
        }
        return Err(Refusal::TableFull);
    }
    if is_repeat(slot, h) {
        return Ok(OpeningKind::Repeat);
    }
    Err(Refusal::NameInUse)
}

// 9 and 10, where `admitted` is whether the numbers are.
fn check_sequence(s: Slot, admitted: bool) -> Result<(), Refusal>
    ensures { result ≡ refusal (sequence_checks s admitted) }
{
    if !is_waiting(s.status) {
        return Err(Refusal::NoConnection);
    }
    if !admitted {
        return Err(Refusal::Sequence);
    }
    Ok(())
}

// Not 6: the flags are those of an opening, a completion or a reset.
pub fn has_kind(kind: Kind) -> bool
    ensures { result ≡ has_kind kind }
{
    !matches!(kind, Kind::Other)
}

// 9 and 10, of a completion or a reset.
pub fn check_later(slot: Slot, h: Header, kind: Kind) -> Result<(), Refusal>
    ensures { result ≡ refusal (later_checks slot h kind) }
{
    match kind {
        Kind::Ack => check_sequence(slot, admits_completion(slot, h)),
        Kind::Rst => check_sequence(slot, admits_reset(slot, h)),
        Kind::Syn | Kind::Other => Err(Refusal::Flags),
    }
}

#[tactic(auto, unfolding(protocol::specs::Refusals::in_range))]
pub fn is_in_range(g: Settings) -> bool
    ensures { result ≡ in_range g }
{
    g.limit <= MOST_LIMIT
        && g.early_room <= MOST_EARLY_ROOM
        && g.hold <= MOST_HOLD
        && LEAST_MSS <= g.mss
        && g.mss <= MOST_MSS
        && LEAST_SHARE <= g.share
        && g.share <= MOST_SHARE
}

// Whether a call by name may free the connection: close an established one, abandon one that waits.
pub fn is_releasable(established: bool, s: Status) -> bool
    ensures { result ≡ is_releasable established s }
{
    if established {
        is_established(s)
    } else {
        is_waiting(s)
    }
}
