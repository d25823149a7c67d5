// Addresses of both families, the names that are made of them, and the checks that every call of listener and client begins with.
#![tactic(auto)]

pub mod address;
pub mod checks;
