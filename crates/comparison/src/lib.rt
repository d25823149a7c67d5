// Two captures side by side: each is judged by a listener of its own, and the pairs of fed records that the two sites answered differently are listed.
#![tactic(auto)]

pub mod compare;
pub mod difference;
pub mod list;
pub mod lockstep;
pub mod site;
