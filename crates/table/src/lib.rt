// The table of connections: its slots; one scan of them that finds the peer's place, the lowest free place and pending; and the test of a slot for a peer,
// for a search that needs no more.
#![tactic(auto)]

pub mod scan;
pub mod slot;
