// Lists and bytes, for every crate above: definitions in specs/, laws in proofs/, and bytes copied.
#![tactic(auto)]

pub mod copy;
