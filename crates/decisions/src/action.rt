// What a segment that was not refused does to its connection.
ghost use Rattle.std.specs.Prelude.{◌≡◌, min, ◌≤◌, length};
ghost use Rattle.protocol.specs.Cookie.{found};
ghost use Rattle.protocol.specs.Table.{slot_count, new_slot};
ghost use Rattle.decisions.specs.Parts.{is_opening, limit_allows, slots_to_count, opened, later_event, later_slot};

use cookie::check_option;
use protocol::outcome::Event;
use protocol::slots::{SLOTS, Slot, Status};
use protocol::state::{Keys, StoredSettings};
use segment::header::{Header, Kind};
use segment::options::{FastOpenOption, is_counted};
use table::slot::{after_reset, new_slot, with_status};

// Whether a segment asks for a connection.
pub fn is_opening(kind: Kind) -> bool
    ensures { result ≡ is_opening kind }
{
    matches!(kind, Kind::Syn)
}

// A new connection: what happened, its slot, and the fresh cookie that goes with the SYN-ACK, if any.
#[derive(Clone, Copy, Drop)]
pub struct Opened {
    pub event: Event,
    pub slot: Slot,
    pub fresh: Option<[u8; 8]>,
}

// How many bytes of a payload are accepted: no more than the early room.
fn accept(payload: &[u8], early_room: u32) -> u32
    ensures { result ≡ min (length payload.now) early_room }
{
    usize::min(payload.len(), early_room as usize) as u32
}

// Whether Fast Open is on and pending is below the limit. The share of the address is asked for after that.
pub fn limit_allows(g: StoredSettings, pending: u32) -> bool
    ensures { result ≡ limit_allows g pending }
{
    g.on && pending < g.limit
}

// How many slots are looked at to count the pending of an opening's source address: none where pending, and so that number, is below the share, or where no
// option counts; else all.
pub fn slots_to_count(share: u32, pending: u32, fast: FastOpenOption) -> usize
    ensures { (result ≡ slots_to_count share pending fast) × (result ≤ slot_count) }
{
    if pending < share || !is_counted(fast) {
        return 0;
    }
    SLOTS
}

// A new connection's slot, where no option counts.
pub fn open_plain(b: [u8; 16], h: Header, iss: u32) -> Slot
    ensures { result ≡ new_slot b h.source h.seq iss Status.SynReceived }
{
    new_slot(b, h.source, h.seq, iss, Status::SynReceived)
}

// A new connection, by its option: a cookie that is right makes it early.
pub fn open_by_option(
    g: StoredSettings,
    keys: Keys,
    b: [u8; 16],
    h: Header,
    iss: u32,
    area: &[u8],
    fast: FastOpenOption,
    payload: &[u8],
) -> Opened
    ensures { result ≡ opened keys b h iss (found fast area.now) (min (length payload.now) g.early_room) }
{
    let option = check_option(keys, b, area, fast);
    if option.right {
        let n = accept(payload, g.early_room);
        return Opened {
            event: Event::FastOpened(n),
            slot: new_slot(b, h.source, h.seq, iss, Status::SynReceivedEarly(n)),
            fresh: option.fresh,
        };
    }
    Opened {
        event: Event::Regular,
        slot: open_plain(b, h, iss),
        fresh: option.fresh,
    }
}

// What a later segment, a completion or a reset, comes to.
pub fn later_event(kind: Kind) -> Event
    ensures { result ≡ later_event kind }
{
    match kind {
        Kind::Rst => Event::WasReset,
        Kind::Ack => Event::Completed,
        Kind::Syn | Kind::Other => Event::Done,
    }
}

// The connection's slot after it; `end` is when the hold of a reset would end.
pub fn later_slot(slot: Slot, end: u64, kind: Kind) -> Slot
    ensures { result ≡ later_slot slot end kind }
{
    match kind {
        Kind::Rst => with_status(slot, after_reset(end, slot.status)),
        Kind::Ack => with_status(slot, Status::Established),
        Kind::Syn | Kind::Other => slot,
    }
}
