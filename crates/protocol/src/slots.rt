// The table's slots.

// How many slots the table has.
pub const SLOTS: usize = 64;

// Document 01's free, plain, early with its accepted count, held until a time, and open.
#[derive(Clone, Copy, Drop)]
pub enum Status {
    Free,
    SynReceived,
    SynReceivedEarly(u32),
    ResetHeld(u64),
    Established,
}

// A connection: the peer's address as a block, its port, both initial numbers and the status.
#[derive(Clone, Copy, Drop)]
pub struct Slot {
    pub addr: [u8; 16],
    pub port: u16,
    pub irs: u32,
    pub iss: u32,
    pub status: Status,
}
