// Classic capture files (pcap), of raw IP packets: read in place, walked in windows, and written.
#![tactic(auto)]

pub mod capture;
pub mod file;
pub mod record;
pub mod walker;
pub mod window;
pub mod write;
