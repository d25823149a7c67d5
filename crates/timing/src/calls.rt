// Whole calls of a listener, as a program makes them: the listener goes into a call and comes back in its outcome.
use crate::data;
use crate::data::LONGEST;
use listener::calls::{abandon, close, segment, set_key, set_settings, start};
use listener::outcome::{accepted_count, event_number};
use protocol::outcome::Event;
use protocol::state::{Listener, Settings};
use segment::options::Codings;
use segment::sequence::next_after;
use segment::write::LONGEST_SYN_ACK;
use text::part::first;

// Our number, where it is not the turn's.
const ISS: u32 = 7;

// Our number at a turn.
fn iss_at(turn: u64) -> u32 {
    (turn % 4294967296) as u32
}

// The checksum of the segment that was written, or 0.
fn checksum_field(written: usize, out: &[u8; LONGEST_SYN_ACK]) -> u64 {
    if written == 0 {
        return 0;
    }
    u64::from(u16::from_be_bytes([out[16], out[17]]))
}

// A digest with the outcome of one more call.
pub(crate) fn add(digest: u64, event: Event, written: usize, out: &[u8; LONGEST_SYN_ACK]) -> u64 {
    digest
        .wrapping_add(u64::from(event_number(event)))
        .wrapping_add(u64::from(accepted_count(event)))
        .wrapping_add(written as u64)
        .wrapping_add(checksum_field(written, out))
}

// Before the loops

// The listener, on, where an address may have so many pending.
fn with_share(l: Listener, share: u32) -> Listener {
    let settings = Settings {
        on: true,
        limit: 64,
        early_room: 1460,
        hold: 0,
        mss: 1460,
        codings: Codings::NewOnly,
        share,
    };
    set_settings(l, 0, settings).listener
}

// A listener as it is after its start: off, with no connection.
pub(crate) fn first_listener() -> Listener {
    start(&data::own(), data::OWN_PORT, &data::key()).listener
}

// A listener that is on, with no connection.
fn empty_listener() -> Listener {
    with_share(first_listener(), 64)
}

// The cookie of the peer's address, from the SYN-ACK to a request.
fn cookie_of_peer(peer: &[u8; 4]) -> [u8; 8] {
    let mut buffer = [0u8; LONGEST];
    let request = data::put_opening(&mut buffer, peer, data::PEER_PORT, &[], &[]);
    let mut out = [0u8; LONGEST_SYN_ACK];
    segment(empty_listener(), 0, peer, request, ISS, &mut out);
    let mut cookie = [0u8; 8];
    cookie.copy_from_slice(&out[26..34]);
    cookie
}

// The port of a live connection. There are 64 slots.
fn live_port(k: u64) -> u16 {
    (50000 + k % 64) as u16
}

// The early opening from a port, at the start of a buffer of a segment's greatest length.
fn put_early<'a>(
    out: &'a mut [u8; LONGEST],
    peer: &[u8; 4],
    port: u16,
    payload: usize,
) -> &'a mut [u8] {
    let bytes = data::bytes();
    data::put_opening(
        out,
        peer,
        port,
        &cookie_of_peer(peer),
        first(&bytes, payload),
    )
}

// An opening without data: with the cookie, or a request for one.
fn put_live<'a>(
    out: &'a mut [u8; LONGEST],
    peer: &[u8; 4],
    port: u16,
    early: bool,
) -> &'a mut [u8] {
    if early {
        return put_early(out, peer, port, 0);
    }
    data::put_opening(out, peer, port, &[], &[])
}

// The listener after one of these more.
fn with_connection(l: Listener, peer: &[u8; 4], port: u16, early: bool) -> Listener {
    let mut buffer = [0u8; LONGEST];
    let opening = put_live(&mut buffer, peer, port, early);
    let mut out = [0u8; LONGEST_SYN_ACK];
    segment(l, 0, peer, opening, ISS, &mut out).listener
}

// A listener that has answered so many of them, from the ports 50,000 on: early ones are pending, requests are not.
fn listener_after(peer: &[u8; 4], live: u64, early: bool) -> Listener {
    (0..live).fold(empty_listener(), |l, k| {
        with_connection(l, peer, live_port(k), early)
    })
}

// So many turns of a work, on what a peer sends: with so many live connections, and so many bytes of data.
#[derive(Clone, Copy, Drop)]
pub(crate) struct Task {
    pub(crate) peer: [u8; 4],
    pub(crate) count: u64,
    pub(crate) live: u64,
    pub(crate) payload: usize,
}

impl Task {
    fn put_early<'a>(&self, out: &'a mut [u8; LONGEST]) -> &'a mut [u8] {
        put_early(out, &self.peer, data::PEER_PORT, self.payload)
    }

    fn listener(&self) -> Listener {
        listener_after(&self.peer, self.live, false)
    }

    // The turns, as any user of the library writes them: the listener of an outcome goes into the next call. (A turn as a closure would clear the room for its
    // outcomes each time.)

    // Each turn an opening and its abandon.
    fn open_and_abandon(&self, start: Listener, opening: &[u8]) -> u64 {
        let mut out = [0u8; LONGEST_SYN_ACK];
        let mut l = start;
        let mut digest = 0;
        for turn in 0..self.count {
            let opened = segment(l, 0, &self.peer, opening, iss_at(turn), &mut out);
            digest = add(digest, opened.event, opened.written, &out);
            let left = abandon(opened.listener, 0, &self.peer, data::PEER_PORT);
            digest = add(digest, left.event, left.written, &out);
            l = left.listener;
        }
        digest
    }

    // Each turn a segment that leaves the table as it was.
    fn take_again(&self, start: Listener, seg: &[u8]) -> u64 {
        let mut out = [0u8; LONGEST_SYN_ACK];
        let mut l = start;
        let mut digest = 0;
        for turn in 0..self.count {
            let o = segment(l, 0, &self.peer, seg, iss_at(turn), &mut out);
            digest = add(digest, o.event, o.written, &out);
            l = o.listener;
        }
        digest
    }

    // Each turn an opening, its completion and its close.
    fn complete_and_close(&self, start: Listener, opening: &[u8], completion: &[u8]) -> u64 {
        let mut out = [0u8; LONGEST_SYN_ACK];
        let mut l = start;
        let mut digest = 0;
        for turn in 0..self.count {
            let opened = segment(l, 0, &self.peer, opening, ISS, &mut out);
            digest = add(digest, opened.event, opened.written, &out);
            let completed = segment(
                opened.listener,
                0,
                &self.peer,
                completion,
                iss_at(turn),
                &mut out,
            );
            digest = add(digest, completed.event, completed.written, &out);
            let left = close(completed.listener, 0, &self.peer, data::PEER_PORT);
            digest = add(digest, left.event, left.written, &out);
            l = left.listener;
        }
        digest
    }

    // Each turn the abandon of a name that is not in the table.
    fn abandon_again(&self, start: Listener) -> u64 {
        let out = [0u8; LONGEST_SYN_ACK];
        let mut l = start;
        let mut digest = 0;
        for _ in 0..self.count {
            let o = abandon(l, 0, &self.peer, data::PEER_PORT);
            digest = add(digest, o.event, o.written, &out);
            l = o.listener;
        }
        digest
    }

    // The works

    pub(crate) fn early(&self) -> u64 {
        let mut buffer = [0u8; LONGEST];
        let opening = self.put_early(&mut buffer);
        self.open_and_abandon(self.listener(), opening)
    }

    // The early opening where the key has turned since its cookie was given: two blocks are encrypted.
    pub(crate) fn turned(&self) -> u64 {
        let mut buffer = [0u8; LONGEST];
        let opening = self.put_early(&mut buffer);
        let o = set_key(self.listener(), 0, &data::next_key());
        self.open_and_abandon(o.listener, opening)
    }

    // The early opening under a share of 8, where so many early ones of another address are pending: from eight on the table is gone through for the peer's own.
    pub(crate) fn shared(&self) -> u64 {
        let mut buffer = [0u8; LONGEST];
        let opening = self.put_early(&mut buffer);
        let l = listener_after(&data::other_peer(self.live), self.live, true);
        self.open_and_abandon(with_share(l, 8), opening)
    }

    pub(crate) fn request(&self) -> u64 {
        let mut buffer = [0u8; LONGEST];
        let opening = data::put_opening(&mut buffer, &self.peer, data::PEER_PORT, &[], &[]);
        self.open_and_abandon(self.listener(), opening)
    }

    pub(crate) fn repeat(&self) -> u64 {
        let mut buffer = [0u8; LONGEST];
        let opening = self.put_early(&mut buffer);
        let mut out = [0u8; LONGEST_SYN_ACK];
        let opened = segment(self.listener(), 0, &self.peer, opening, ISS, &mut out);
        self.take_again(opened.listener, opening)
    }

    // The sequence number of a completion follows the bytes that its opening's SYN-ACK acknowledges.
    pub(crate) fn completion(&self) -> u64 {
        let mut buffer = [0u8; LONGEST];
        let opening = self.put_early(&mut buffer);
        let l = self.listener();
        let mut out = [0u8; LONGEST_SYN_ACK];
        let opened = segment(l, 0, &self.peer, opening, ISS, &mut out);
        let seq = next_after(data::IRS, accepted_count(opened.event));
        let completion = data::completion(&self.peer, seq, ISS + 1);
        self.complete_and_close(l, opening, &completion)
    }

    // The early opening with its last byte changed, so that its checksum is wrong.
    pub(crate) fn refusal(&self) -> u64 {
        let mut buffer = [0u8; LONGEST];
        let opening = self.put_early(&mut buffer);
        if let Some(last) = opening.last_mut() {
            *last ^= 1;
        }
        self.take_again(self.listener(), opening)
    }

    pub(crate) fn full(&self) -> u64 {
        let mut buffer = [0u8; LONGEST];
        let opening = self.put_early(&mut buffer);
        self.take_again(listener_after(&self.peer, 64, false), opening)
    }

    pub(crate) fn unknown(&self) -> u64 {
        self.abandon_again(self.listener())
    }
}
