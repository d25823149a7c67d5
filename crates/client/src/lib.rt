// A client's memory for TCP Fast Open (RFC 7413, 4.1.3, 4.2.1 and 4.2.2): the cookies and segment sizes of servers, and the servers that no Fast Open option is sent to.
//
// A memory goes into each call by value and comes back in its outcome. No call has a precondition: whatever memory, bytes, times and numbers come, it is done or
// refused with one of document 01's numbers, and a refused call changes nothing. The definitions that the contracts cite are in specs/.
#![tactic(auto)]

pub mod bans;
pub mod cache;
pub mod calls;
mod checks;
pub mod outcome;
pub mod state;
