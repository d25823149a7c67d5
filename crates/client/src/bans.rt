// The bans: servers, by address and port, that no Fast Open option is sent to for a while.
ghost use Rattle.std.specs.Prelude.{◌≡◌, ◌≤◌, ◌<◌};
ghost use Rattle.endpoint.specs.Checks.{last_time};
ghost use Rattle.client.specs.Bans.{zero_ban, is_ban, ban_place, is_banned, free_place, ends_first, place_for, add_ban};

use crate::state::PLACES;
use endpoint::address::same_name;

// How long a ban lasts, in ms.
pub const BAN_TIME: u64 = 600000;

// A server's name: its address, by the block, and its port.
#[derive(Clone, Copy, Drop)]
pub(crate) struct Name {
    pub addr: [u8; 16],
    pub port: u16,
}

// A server's name, and the time at which the ban ends. A place that never had a ban is as free as one whose ban has ended, so its end is 0.
#[derive(Clone, Copy, Drop)]
pub struct Ban {
    pub addr: [u8; 16],
    pub port: u16,
    pub end: u64,
}

pub(crate) fn no_ban() -> Ban
    ensures { result ≡ zero_ban }
{
    Ban {
        addr: [0u8; 16],
        port: 0,
        end: 0,
    }
}

// Whether a ban of this name is live at the time.
#[tactic(auto, unfolding(crate::specs::Bans::is_ban))]
fn is_ban(time: u64, name: Name, x: &Ban) -> bool
    ensures { result ≡ is_ban time name.addr name.port x.now }
{
    time < x.end && same_name(x.port, name.port, x.addr, name.addr)
}

// The place of the live ban of this name, if there is one.
fn ban_place(bans: &[Ban; PLACES], time: u64, name: Name) -> Option<usize>
    ensures { result ≡ ban_place time name.addr name.port bans.now }
{
    bans.iter().position(|x| is_ban(time, name, x))
}

pub(crate) fn is_banned(bans: &[Ban; PLACES], time: u64, name: Name) -> bool
    ensures { result ≡ is_banned time name.addr name.port bans.now }
{
    ban_place(bans, time, name).is_some()
}

// The lowest place that is not live, if there is one.
fn free_place(bans: &[Ban; PLACES], time: u64) -> Option<usize>
    ensures { result ≡ free_place time bans.now }
{
    bans.iter().position(|x| x.end <= time)
}

// The place of the ban that ends first, the lowest on a tie.
fn first_to_end(bans: &[Ban; PLACES]) -> usize
    ensures place { result ≡ ends_first bans.now }
    ensures within { result < 32 }
{
    let mut first = 0;
    for (i, x) in bans.iter().enumerate() {
        if x.end < bans[first].end {
            first = i;
        }
    }
    first
}

// Where a ban of this name goes.
fn place_for(bans: &[Ban; PLACES], time: u64, name: Name) -> usize
    ensures place { result ≡ place_for time name.addr name.port bans.now }
    ensures within { result < 32 }
{
    ban_place(bans, time, name)
        .or_else(|| free_place(bans, time))
        .unwrap_or_else(|| first_to_end(bans))
}

// Bans a server from a time on.
#[tactic(auto, unfolding(crate::specs::Bans::add_ban))]
pub(crate) fn set_ban(bans: &mut [Ban; PLACES], time: u64, name: Name)
    requires { time ≤ last_time }
    ensures { bans.new ≡ add_ban time name.addr name.port bans.old }
{
    let i = place_for(bans, time, name);
    let addr = name.addr;
    bans[i] = Ban {
        addr,
        port: name.port,
        end: time + BAN_TIME,
    };
}
