// The start, the calls and the readings. Each call carries a time in ms and returns the listener next; a refused one returns the listener as it was
// and leaves the output alone.
//
// A listener is large, and a function that takes one by value copies it. So a call changes the one that it was given, lends its table to what scans, searches or
// counts it, and each of its ends is a `return`, or where no table is read an arm of one `match`. An opening scans the table, and where that may matter counts
// the pending slots of its source address; any other call that needs a connection searches it.
ghost use Rattle.std.specs.Prelude.{Err, ◌≡◌, ◌≤◌, ◌&&◌, ltb, length, take};
ghost use Rattle.lists.specs.Bytes.{overwrite};
ghost use Rattle.segment.specs.Options.{is_counted};
ghost use Rattle.segment.specs.Remarks.{no_remarks};
ghost use Rattle.protocol.specs.Table.{pending_from};
ghost use Rattle.protocol.specs.Call.{Call};
ghost use Rattle.protocol.specs.Refusals.{release_of};
ghost use Rattle.protocol.specs.Step.{blank, fresh_listener, never_started, start_of, outcome, step, output_of, pending_number};
ghost use Rattle.decisions.specs.Parts.{limit_allows, slots_to_count};

use crate::outcome::new_outcome;
use cipher::expand_key;
use decisions::action::{
    is_opening, later_event, later_slot, limit_allows, open_by_option, open_plain, slots_to_count,
};
use decisions::checks::{
    OpeningKind, check_later, check_opening, check_output, has_kind, is_in_range, is_releasable,
    receive,
};
use decisions::reply::write_from;
use endpoint::address::{Family, block_of, family_of, is_size};
use endpoint::checks::{check_name, check_time};
use lists::copy::copy;
use protocol::outcome::{Event, Outcome, Started};
use protocol::slots::{SLOTS, Slot, Status};
use protocol::state::{
    FRESH_MSS, FRESH_SHARE, Keys, Listener, LocalEndpoint, Settings, StoredSettings,
};
use segment::header::{area_within, kind_of, payload_after};
use segment::options::{
    Coding, Codings, FastOpenOption, coding_of, is_counted, no_remarks, read_options,
};
use segment::refusal::Refusal;
use table::scan::{count_pending, count_pending_from, find_peer, scan_table, slot_at, store};
use table::slot::{free_slot, is_waiting, with_status};

// What a call comes to on which nothing is remarked.
fn unremarked(l: Listener, event: Event, written: usize) -> Outcome
    ensures { result ≡ outcome l event written no_remarks }
{
    new_outcome(l, event, written, no_remarks())
}

// A refused call changes nothing.
fn refused(l: Listener, why: Refusal) -> Outcome
    ensures { result ≡ outcome l (Event.Refused why) 0 no_remarks }
{
    unremarked(l, Event::Refused(why), 0)
}

// Done, with nothing written and no verdict.
fn done(l: Listener) -> Outcome
    ensures { result ≡ outcome l Event.Done 0 no_remarks }
{
    unremarked(l, Event::Done, 0)
}

// A listener with no connection, at time 0.
fn blank_listener(local: LocalEndpoint, keys: Keys) -> Listener
    ensures { result ≡ blank local keys }
{
    Listener {
        slots: [free_slot(); SLOTS],
        keys,
        local,
        settings: StoredSettings {
            on: false,
            limit: 0,
            early_room: 0,
            hold: 0,
            mss: FRESH_MSS,
            codings: Codings::NewOnly,
            share: FRESH_SHARE,
        },
        clock: 0,
    }
}

// The listener of a refused start.
pub fn never_started() -> Listener
    ensures { result ≡ never_started }
{
    let local = LocalEndpoint {
        started: false,
        family: Family::V4,
        own: [0u8; 16],
        port: 0,
    };
    let keys = Keys {
        present: [0u8; 176],
        previous: None,
    };
    blank_listener(local, keys)
}

// A key of 16 bytes.
fn key_of(key: &[u8]) -> [u8; 16]
    requires { length key.now ≡ 16 }
    ensures { result ≡ key.now }
{
    let mut k = [0u8; 16];
    copy(key, &mut k);
    k
}

fn fresh_listener(own: &[u8], port: u16, key: &[u8]) -> Listener
    requires { (length own.now ≤ 16) × (length key.now ≡ 16) }
    ensures { result ≡ fresh_listener own.now port key.now }
{
    let local = LocalEndpoint {
        started: true,
        family: family_of(own.len()),
        own: block_of(own),
        port,
    };
    let keys = Keys {
        present: expand_key(key_of(key)),
        previous: None,
    };
    blank_listener(local, keys)
}

fn refused_start(why: Refusal) -> Started
    ensures { result ≡ record { listener = never_started; check = Err why } }
{
    Started {
        listener: never_started(),
        check: Err(why),
    }
}

// Starts a listener: own address, own port, and a key of 16 bytes.
pub fn start(own: &[u8], port: u16, key: &[u8]) -> Started
    ensures { result ≡ start_of own.now port key.now }
{
    if !is_size(own.len()) {
        return refused_start(Refusal::Address);
    }
    if key.len() != 16 {
        return refused_start(Refusal::Range);
    }
    Started {
        listener: fresh_listener(own, port, key),
        check: Ok(()),
    }
}

// Whether an opening's option is to count: Fast Open is on, pending is below the limit, and the source address's own number below the share. That number is at
// most pending: it is counted only where pending reaches the share.
fn allows(
    slots: &[Slot; SLOTS],
    time: u64,
    b: [u8; 16],
    g: StoredSettings,
    pending: u32,
    fast: FastOpenOption,
) -> bool
    ensures { result ≡ is_counted fast && (limit_allows g pending && ltb (pending_from time b (take (slots_to_count g.share pending fast) slots.now)) g.share) }
{
    is_counted(fast)
        && limit_allows(g, pending)
        && count_pending_from(&slots[..slots_to_count(g.share, pending, fast)], time, b)
            < g.share as usize
}

// Takes a segment of any kind from a source address. `iss` is our initial number, should it open a connection; an output of under 36 bytes is
// refused, whatever the kind.
pub fn segment(
    mut l: Listener,
    time: u64,
    src: &[u8],
    seg: &[u8],
    iss: u32,
    out: &mut [u8],
) -> Outcome
    ensures value { result ≡ step l (Call.segment time src.now seg.now iss (length out.old)) }
    ensures out_after { out.new ≡ overwrite (output_of l (Call.segment time src.now seg.now iss (length out.old))) out.old }
{
    let h = match receive(l.local, l.clock, time, src, seg, out.len()) {
        Ok(h) => h,
        Err(why) => return refused(l, why),
    };
    let kind = kind_of(h.flags);
    if !has_kind(kind) {
        return refused(l, Refusal::Flags);
    }
    let b = block_of(src);
    let settings = l.settings;
    // A completion or a reset needs its connection alone.
    if !is_opening(kind) {
        let place = find_peer(&l.slots, time, b, h.source);
        let slot = slot_at(&l.slots, place);
        if let Err(why) = check_later(slot, h, kind) {
            return refused(l, why);
        }
        store(
            &mut l.slots,
            place,
            later_slot(slot, time + (settings.hold as u64), kind),
        );
        l.clock = time;
        return unremarked(l, later_event(kind), 0);
    }
    // An opening needs all of the table: the peer, a free slot, and how many are pending.
    let scan = scan_table(&l.slots, time, b, h.source);
    let slot = slot_at(&l.slots, scan.place);
    let opening = match check_opening(slot, scan.free.is_some(), h) {
        Ok(opening) => opening,
        Err(why) => return refused(l, why),
    };
    let area = area_within(seg, h.offset);
    let report = read_options(settings.codings, area);
    let remarks = report.remarks;
    if let OpeningKind::Repeat = opening {
        let written = write_from(out, l.local, settings.mss, src, slot, None, Coding::New);
        l.clock = time;
        return new_outcome(l, Event::Retransmission, written, remarks);
    }
    let fast = report.options.fast;
    // Where the option does not count no key is read.
    if !allows(&l.slots, time, b, settings, scan.pending, fast) {
        let new = open_plain(b, h, iss);
        let written = write_from(out, l.local, settings.mss, src, new, None, Coding::New);
        store(&mut l.slots, scan.free, new);
        l.clock = time;
        return new_outcome(l, Event::Regular, written, remarks);
    }
    let payload = payload_after(seg, h.offset);
    let opened = open_by_option(settings, l.keys, b, h, iss, area, fast, payload);
    let written = write_from(
        out,
        l.local,
        settings.mss,
        src,
        opened.slot,
        opened.fresh,
        coding_of(fast),
    );
    store(&mut l.slots, scan.free, opened.slot);
    l.clock = time;
    new_outcome(l, opened.event, written, remarks)
}

// Sets the settings. Its two ends are values of one `match`: with a `return` for each, the listener is copied twice more.
pub fn set_settings(mut l: Listener, time: u64, g: Settings) -> Outcome
    ensures { result ≡ step l (Call.settings time g) }
{
    match check_time(l.local.started, l.clock, time) {
        Err(why) => refused(l, why),
        Ok(()) => {
            if !is_in_range(g) {
                return refused(l, Refusal::Range);
            }
            l.settings = StoredSettings {
                on: g.on,
                limit: g.limit,
                early_room: g.early_room,
                hold: g.hold,
                mss: g.mss as u16,
                codings: g.codings,
                share: g.share,
            };
            l.clock = time;
            done(l)
        }
    }
}

// Sets the key, of 16 bytes; the present one becomes the previous one. Its two ends are values of one `match`, as those of `set_settings`.
pub fn set_key(mut l: Listener, time: u64, key: &[u8]) -> Outcome
    ensures { result ≡ step l (Call.key time key.now) }
{
    match check_time(l.local.started, l.clock, time) {
        Err(why) => refused(l, why),
        Ok(()) => {
            if key.len() != 16 {
                return refused(l, Refusal::Range);
            }
            l.keys = Keys {
                present: expand_key(key_of(key)),
                previous: Some(l.keys.present),
            };
            l.clock = time;
            done(l)
        }
    }
}

// Frees a connection's slot, by its name, if its status is right for it.
fn free_named(mut l: Listener, time: u64, addr: &[u8], port: u16, established: bool) -> Outcome
    ensures { result ≡ step l (release_of established time addr.now port) }
{
    if let Err(why) = check_name(l.local.started, l.local.family, l.clock, time, addr) {
        return refused(l, why);
    }
    let place = find_peer(&l.slots, time, block_of(addr), port);
    let slot = slot_at(&l.slots, place);
    if !is_releasable(established, slot.status) {
        return refused(l, Refusal::NoConnection);
    }
    store(&mut l.slots, place, with_status(slot, Status::Free));
    l.clock = time;
    done(l)
}

// Abandons a connection whose handshake is not complete.
pub fn abandon(l: Listener, time: u64, addr: &[u8], port: u16) -> Outcome
    ensures { result ≡ step l (Call.abandon time addr.now port) }
{
    free_named(l, time, addr, port, false)
}

// Closes a connection whose handshake is complete.
pub fn close(l: Listener, time: u64, addr: &[u8], port: u16) -> Outcome
    ensures { result ≡ step l (Call.close time addr.now port) }
{
    free_named(l, time, addr, port, true)
}

// Writes the SYN-ACK of a connection whose handshake is not complete once more.
pub fn resend(mut l: Listener, time: u64, addr: &[u8], port: u16, out: &mut [u8]) -> Outcome
    ensures value { result ≡ step l (Call.resend time addr.now port (length out.old)) }
    ensures out_after { out.new ≡ overwrite (output_of l (Call.resend time addr.now port (length out.old))) out.old }
{
    if let Err(why) = check_output(l.local, l.clock, time, addr, out.len()) {
        return refused(l, why);
    }
    let slot = slot_at(&l.slots, find_peer(&l.slots, time, block_of(addr), port));
    if !is_waiting(slot.status) {
        return refused(l, Refusal::NoConnection);
    }
    let mss = l.settings.mss;
    let written = write_from(out, l.local, mss, addr, slot, None, Coding::New);
    l.clock = time;
    unremarked(l, Event::Done, written)
}

// The pending number; 0 for a listener that was never started.
pub fn pending(l: Listener) -> u32
    ensures { result ≡ pending_number l }
{
    if l.local.started {
        return count_pending(&l.slots, l.clock);
    }
    0
}
