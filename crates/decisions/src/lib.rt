// The listener's decisions, on small values (a header, the peer's slot, settings, keys) and never on the listener itself, so that they know nothing of how
// slots are stored: which refusal a call gets, what a segment that is not refused does to its connection, and the SYN-ACK that is written.
#![tactic(auto)]

pub mod action;
pub mod checks;
pub mod reply;
