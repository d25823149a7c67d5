// What the calls look for in the table: all of it in one scan, the connection of a name, and how many slots are pending.
ghost use Rattle.std.specs.Prelude.{◌≡◌, true};
ghost use Rattle.std.specs.List.{position};
ghost use Rattle.protocol.specs.Table.{holds_peer, pends_from, pending_at, pending_from, scan_of};
ghost use Rattle.table.specs.Scan.{first_place, count_if, found, scan_with, slot_found, stored};

use crate::slot::{free_slot, is_live, is_pending};
use endpoint::address::{same_block, same_name};
use protocol::slots::{SLOTS, Slot};

// What one scan finds: the peer's place, the lowest free place, and how many slots are pending.
#[derive(Clone, Copy, Drop)]
pub struct Scan {
    pub place: Option<usize>,
    pub free: Option<usize>,
    pub pending: u32,
}

// Whether the slot holds a connection of this name at the time. The name comes first: in a search for it most slots' statuses need not be read.
#[tactic(auto, unfolding(protocol::specs::Table::holds_peer))]
fn holds_peer(time: u64, b: [u8; 16], port: u16, s: Slot) -> bool
    ensures { result ≡ holds_peer time b port s }
{
    same_name(s.port, port, s.addr, b) && is_live(time, s.status)
}

// Whether the slot counts in the share of the address with this block. The status comes first: an address is compared, whole, only where it is pending.
#[tactic(auto, unfolding(protocol::specs::Table::pends_from))]
fn pends_from(time: u64, b: [u8; 16], s: Slot) -> bool
    ensures { result ≡ pends_from time b s }
{
    is_pending(time, s.status) && same_block(s.addr, b)
}

// What is known where a slot is free.
fn with_free(scan: Scan, i: usize) -> Scan
    ensures { result ≡ record { place = scan.place; free = first_place scan.free i true; pending = scan.pending } }
{
    if scan.free.is_some() {
        return scan;
    }
    Scan {
        free: Some(i),
        ..scan
    }
}

// What is known where a slot is the peer's.
fn with_place(scan: Scan, i: usize) -> Scan
    ensures { result ≡ record { place = first_place scan.place i true; free = scan.free; pending = scan.pending } }
{
    if scan.place.is_some() {
        return scan;
    }
    Scan {
        place: Some(i),
        ..scan
    }
}

// One more pending, if this slot is. (A table of 64 never comes near the end of a `u32`.)
fn with_pending(scan: Scan, here: bool) -> Scan
    ensures { result ≡ record { place = scan.place; free = scan.free; pending = count_if scan.pending here } }
{
    if here {
        return Scan {
            pending: scan.pending.wrapping_add(1),
            ..scan
        };
    }
    scan
}

// The scan goes on by one slot: its status, then its port, then its address. Each answer has a return of its own, and what did not change is handed
// on whole: so a slot takes about twelve instructions.
fn scan_slot(scan: Scan, i: usize, time: u64, b: [u8; 16], port: u16, s: Slot) -> Scan
    ensures { result ≡ scan_with scan i time b port s }
{
    if !is_live(time, s.status) {
        return with_free(scan, i);
    }
    let counted = with_pending(scan, is_pending(time, s.status));
    if same_name(s.port, port, s.addr, b) {
        return with_place(counted, i);
    }
    counted
}

// Scans the table for the peer with this block and port.
pub fn scan_table(slots: &[Slot; SLOTS], time: u64, b: [u8; 16], port: u16) -> Scan
    ensures { result ≡ found (scan_of time b port slots.now) }
{
    let mut scan = Scan {
        place: None,
        free: None,
        pending: 0,
    };
    for (i, s) in slots.iter().enumerate() {
        scan = scan_slot(scan, i, time, b, port, *s);
    }
    scan
}

// The place of the peer with this block and port.
pub fn find_peer(slots: &[Slot; SLOTS], time: u64, b: [u8; 16], port: u16) -> Option<usize>
    ensures { result ≡ position (holds_peer time b port) slots.now }
{
    slots.iter().position(|s| holds_peer(time, b, port, *s))
}

// The slot at a place that was found; where there is none, the free slot.
pub fn slot_at(slots: &[Slot; SLOTS], place: Option<usize>) -> Slot
    ensures { result ≡ slot_found slots.now place }
{
    match place {
        Some(i) if i < SLOTS => slots[i],
        _ => free_slot(),
    }
}

// Stores a slot at a place that was found; where there is none, nothing changes.
pub fn store(slots: &mut [Slot; SLOTS], place: Option<usize>, s: Slot)
    ensures { slots.new ≡ stored slots.old place s }
{
    if let Some(i) = place
        && i < SLOTS
    {
        slots[i] = s;
    }
}

// How many slots are pending.
pub fn count_pending(slots: &[Slot; SLOTS], time: u64) -> u32
    ensures { result ≡ pending_at time slots.now }
{
    slots.iter().filter(|s| is_pending(time, s.status)).count() as u32
}

// How many slots of one address, by its block, are pending: of the whole table, or of a part of it.
pub fn count_pending_from(slots: &[Slot], time: u64, b: [u8; 16]) -> usize
    ensures { result ≡ pending_from time b slots.now }
{
    slots.iter().filter(|s| pends_from(time, b, **s)).count()
}
