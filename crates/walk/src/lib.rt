// A capture fed to a listener, record by record.
#![tactic(auto)]

pub mod feed;
