// The cookie cache: what is stored for the server addresses stored most recently.
ghost use Rattle.std.specs.Prelude.{◌≡◌, ◌≤◌, length};
ghost use Rattle.client.specs.Cache.{is_for, place_of, entry_for, no_cookie, stored_cookie, stored_mss, size_of, bytes_of, cookie_length, default_mss, mss_cap, mss_for, data_room, new_cookie, remembered};
ghost use Rattle.client.specs.Step.{cache_after};

use crate::state::PLACES;
use endpoint::address::{Family, block_of, same_block};
use segment::options::{Coding, is_cookie_length};
use segment::write::option_length;

// A cookie, of which the first `len` bytes count.
#[derive(Clone, Copy, Drop)]
pub struct Cookie {
    pub bytes: [u8; 16],
    pub len: usize,
}

impl Cookie {
    // How many bytes of it there are to send: none where the length is no cookie's, which a type can't rule out in a memory whose fields are public.
    fn size(&self) -> usize
        ensures { result ≡ size_of self.now }
    {
        if is_cookie_length(self.len) {
            self.len
        } else {
            0
        }
    }

    // The bytes to send.
    #[tactic(auto, using(crate::proofs::After::size_most))]
    pub(crate) fn as_slice(&self) -> &[u8]
        ensures { result.now ≡ bytes_of self.now }
    {
        &self.bytes[..self.size()]
    }
}

// What is stored for a server address, by its block: a cookie, and a maximum segment size if one was received.
#[derive(Clone, Copy, Drop)]
pub struct Entry {
    pub addr: [u8; 16],
    pub cookie: Cookie,
    pub mss: Option<u16>,
}

// Whether this is stored for the server address with this block.
#[tactic(auto, unfolding(crate::specs::Cache::is_for))]
fn is_for(b: [u8; 16], e: &Option<Entry>) -> bool
    ensures { result ≡ is_for b e.now }
{
    match e {
        Some(e) => same_block(e.addr, b),
        None => false,
    }
}

// The place of the server address with this block, if anything is stored for it.
fn place_of(cache: &[Option<Entry>; PLACES], b: [u8; 16]) -> Option<usize>
    ensures { result ≡ place_of b cache.now }
{
    cache.iter().position(|e| is_for(b, e))
}

// What is stored for the server address with this block.
pub(crate) fn entry_for(cache: &[Option<Entry>; PLACES], b: [u8; 16]) -> Option<Entry>
    ensures { result ≡ entry_for b cache.now }
{
    let i = place_of(cache, b)?;
    cache[i]
}

fn no_cookie() -> Cookie
    ensures { result ≡ no_cookie }
{
    Cookie {
        bytes: [0u8; 16],
        len: 0,
    }
}

// The cookie of what is stored.
pub(crate) fn stored_cookie(e: Option<Entry>) -> Cookie
    ensures { result ≡ stored_cookie e }
{
    e.map_or(no_cookie(), |e| e.cookie)
}

// The MSS of what is stored, if one was received.
fn stored_mss(e: Option<Entry>) -> Option<u16>
    ensures { result ≡ stored_mss e }
{
    e?.mss
}

// How many bytes of cookie there are to send.
pub(crate) fn cookie_length(e: Option<Entry>) -> usize
    ensures { result ≡ cookie_length e }
{
    stored_cookie(e).size()
}

fn default_mss(f: Family) -> u32
    ensures { result ≡ default_mss f }
{
    match f {
        Family::V4 => 536,
        Family::V6 => 1220,
    }
}

fn mss_cap(f: Family) -> u32
    ensures { result ≡ mss_cap f }
{
    match f {
        Family::V4 => 1460,
        Family::V6 => 1440,
    }
}

// The MSS of a server, stored or by default, up to the cap: what options and data may have together.
fn mss_for(f: Family, e: Option<Entry>) -> u32
    ensures { result ≡ mss_for f e }
{
    let size = stored_mss(e).map_or(default_mss(f), u32::from);
    size.min(mss_cap(f))
}

// How many bytes of data may go with a stored cookie: what the options leave of the MSS.
#[tactic(auto, using(crate::proofs::After::length_allowed), unfolding(crate::specs::Cache::data_room))]
pub(crate) fn data_room(f: Family, e: Option<Entry>) -> usize
    ensures { result ≡ data_room f e }
{
    let mss = mss_for(f, e) as usize;
    let options = option_length(true, Coding::New, cookie_length(e));
    mss.saturating_sub(options)
}

// The cookie that an answer leaves: its own, unless that is empty.
fn new_cookie(old: Option<Entry>, cookie: &[u8]) -> Cookie
    requires { length cookie.now ≤ 16 }
    ensures { result ≡ new_cookie old cookie.now }
{
    if cookie.is_empty() {
        return stored_cookie(old);
    }
    Cookie {
        bytes: block_of(cookie),
        len: cookie.len(),
    }
}

// The entry goes first, as the most recent one. Those before the place of its address move one place on; where there is none, all do, and the last is dropped.
fn remember(cache: &mut [Option<Entry>; PLACES], e: Entry)
    ensures { cache.new ≡ remembered e cache.old }
{
    let end = place_of(cache, e.addr).unwrap_or(PLACES - 1);
    cache.copy_within(..end, 1);
    cache[0] = Some(e);
}

// Stores what an answer brings, if it brings a cookie or a segment size: they replace the old ones.
pub(crate) fn learn(
    cache: &mut [Option<Entry>; PLACES],
    b: [u8; 16],
    cookie: &[u8],
    mss: Option<u16>,
)
    requires { length cookie.now ≤ 16 }
    ensures { cache.new ≡ cache_after b cookie.now mss cache.old }
{
    if cookie.is_empty() && mss.is_none() {
        return;
    }
    let old = entry_for(cache, b);
    let learned = Entry {
        addr: b,
        cookie: new_cookie(old, cookie),
        mss: mss.or(stored_mss(old)),
    };
    remember(cache, learned);
}
