// The listener's rules: the types of its state and of a call's outcome, with the definitions in specs/ of what each call does and the theorems in proofs/ over every
// list of calls. This crate has no functions: the code that meets these rules is in the crates above it.
#![tactic(auto)]

pub mod outcome;
pub mod slots;
pub mod state;
