// Listener and client together: what one end writes, the other end reads. This crate has no functions of its own; its theorem is in proofs/.
#![tactic(auto)]
