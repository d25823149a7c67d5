// The client's state.
use crate::bans::Ban;
use crate::cache::Entry;
use endpoint::address::Family;

// How many server addresses the cache has, and how many bans there may be.
pub const PLACES: usize = 32;

// The cookie cache, the most recent first; the bans; what the start fixed; and the last accepted time.
#[derive(Clone, Copy, Drop)]
pub struct Memory {
    pub cache: [Option<Entry>; PLACES],
    pub bans: [Ban; PLACES],
    pub started: bool,
    pub family: Family,
    pub clock: u64,
}
