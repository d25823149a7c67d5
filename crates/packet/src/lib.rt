// IP packets that carry TCP (RFC 791, RFC 8200): which are whole and to an address, their parts, and packets written around a segment.
#![tactic(auto)]

pub mod read;
pub mod write;
