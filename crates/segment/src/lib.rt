// TCP segments as RFC 9293 lays them out, with the Fast Open option of RFC 7413, read and written.
//
// Every public function takes whatever bytes come and has no precondition: where a segment is malformed, an address is of no family
// or an output is too short, the result is 0 and nothing is written. The definitions that the contracts cite are in specs/.
#![tactic(auto)]

pub mod checksum;
pub mod header;
pub mod number;
pub mod options;
pub mod refusal;
pub mod sequence;
pub mod write;
