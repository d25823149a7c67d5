// What a status means at a time, and the three makers of a slot: free, new, and with another status.
ghost use Rattle.std.specs.Prelude.{◌≡◌};
ghost use Rattle.protocol.specs.Table.{is_live, is_pending, is_waiting, is_established, is_free, accepted_with, after_reset, free_slot, new_slot, with_status};

use protocol::slots::{Slot, Status};

pub fn is_live(time: u64, s: Status) -> bool
    ensures { result ≡ is_live time s }
{
    match s {
        Status::Free => false,
        Status::SynReceived | Status::SynReceivedEarly(_) | Status::Established => true,
        Status::ResetHeld(until) => time < until,
    }
}

pub fn is_pending(time: u64, s: Status) -> bool
    ensures { result ≡ is_pending time s }
{
    match s {
        Status::Free | Status::SynReceived | Status::Established => false,
        Status::SynReceivedEarly(_) => true,
        Status::ResetHeld(end) => time < end,
    }
}

pub fn is_waiting(s: Status) -> bool
    ensures { result ≡ is_waiting s }
{
    matches!(s, Status::SynReceived | Status::SynReceivedEarly(_))
}

pub fn is_established(s: Status) -> bool
    ensures { result ≡ is_established s }
{
    matches!(s, Status::Established)
}

pub fn is_free(s: Status) -> bool
    ensures { result ≡ is_free s }
{
    matches!(s, Status::Free)
}

// How many bytes of early data were accepted.
pub fn accepted_with(s: Status) -> u32
    ensures { result ≡ accepted_with s }
{
    match s {
        Status::SynReceivedEarly(n) => n,
        _ => 0,
    }
}

// What a reset makes of a status: an early connection stays pending until `end`.
pub fn after_reset(end: u64, s: Status) -> Status
    ensures { result ≡ after_reset end s }
{
    match s {
        Status::SynReceived => Status::Free,
        Status::SynReceivedEarly(_) => Status::ResetHeld(end),
        Status::Free | Status::ResetHeld(_) | Status::Established => s,
    }
}

pub fn free_slot() -> Slot
    ensures { result ≡ free_slot }
{
    Slot {
        addr: [0u8; 16],
        port: 0,
        irs: 0,
        iss: 0,
        status: Status::Free,
    }
}

// A new connection's slot: the peer's block and port, both initial numbers.
pub fn new_slot(addr: [u8; 16], port: u16, irs: u32, iss: u32, status: Status) -> Slot
    ensures { result ≡ new_slot addr port irs iss status }
{
    Slot {
        addr,
        port,
        irs,
        iss,
        status,
    }
}

// The slot with another status.
pub fn with_status(s: Slot, status: Status) -> Slot
    ensures { result ≡ with_status s status }
{
    Slot { status, ..s }
}
