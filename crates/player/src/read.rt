// A line's words, read: which request it is, its numbers, and the lengths of its byte strings, whose bytes go to the start of two buffers.
ghost use Rattle.std.specs.Prelude.{◌≡◌, List, ℕ, drop};
ghost use Rattle.text.specs.Argument.{first_case};
ghost use Rattle.player.specs.Request.{cases, start_in, settings_in, key_in, segment_in, release_in, resend_in, request_in};
ghost use Rattle.player.specs.Order.{out_length, seg_length, request_read};

use protocol::state::{FRESH_SHARE, Settings};
use segment::options::codings_of;
use text::argument::{both_at, bytes_at, number_at, on_at, out_at};
use text::line::MOST_BYTES;
use text::word::is_call;

// A request. A byte string is given by its length: an address, and the key of a key call, are in the first buffer, a start's key and a segment in the second.
#[derive(Clone, Copy, Drop)]
pub enum Order {
    Start {
        own: usize,
        port: u16,
        key: usize,
    },
    Settings {
        time: u64,
        settings: Settings,
    },
    Key {
        time: u64,
        key: usize,
    },
    Segment {
        time: u64,
        src: usize,
        iss: u32,
        out_len: usize,
        seg: usize,
    },
    Release {
        established: bool,
        time: u64,
        addr: usize,
        port: u16,
    },
    Resend {
        time: u64,
        addr: usize,
        port: u16,
        out_len: usize,
    },
}

// How many bytes of output are lent.
pub(crate) fn out_len(order: Order) -> usize
    ensures { result ≡ out_length order }
{
    match order {
        Order::Segment { out_len, .. } => out_len,
        Order::Resend { out_len, .. } => out_len,
        _ => 0,
    }
}

// How long the segment is that is brought.
pub(crate) fn seg_len(order: Order) -> usize
    ensures { result ≡ seg_length order }
{
    match order {
        Order::Segment { seg, .. } => seg,
        _ => 0,
    }
}

// start ADDRESS PORT KEY
fn read_start(line: &[u8], own: &mut [u8; MOST_BYTES], key: &mut [u8; MOST_BYTES]) -> Option<Order>
    ensures { request_read result own.new key.new ≡ start_in line.now }
{
    let own = bytes_at(line, 1, own)?;
    let port = number_at(line, 2)?;
    let key = bytes_at(line, 3, key)?;
    Some(Order::Start { own, port, key })
}

// settings TIME on|off LIMIT ROOM HOLD MSS, with new|both and SHARE as they were read
fn read_settings(line: &[u8], both: Option<bool>, share: Option<u32>) -> Option<Order>
    ensures { (a b : List ℕ) → request_read result a b ≡ settings_in both share line.now }
{
    let time = number_at(line, 1)?;
    let settings = Settings {
        on: on_at(line, 2)?,
        limit: number_at(line, 3)?,
        early_room: number_at(line, 4)?,
        hold: number_at(line, 5)?,
        mss: number_at(line, 6)?,
        codings: codings_of(both?),
        share: share?,
    };
    Some(Order::Settings { time, settings })
}

// key TIME KEY
fn read_key(line: &[u8], key: &mut [u8; MOST_BYTES]) -> Option<Order>
    ensures { (b : List ℕ) → request_read result key.new b ≡ key_in line.now }
{
    let time = number_at(line, 1)?;
    let key = bytes_at(line, 2, key)?;
    Some(Order::Key { time, key })
}

// segment TIME ADDRESS OURS OUT SEGMENT
fn read_segment(
    line: &[u8],
    src: &mut [u8; MOST_BYTES],
    seg: &mut [u8; MOST_BYTES],
) -> Option<Order>
    ensures { request_read result src.new seg.new ≡ segment_in line.now }
{
    let time = number_at(line, 1)?;
    let src = bytes_at(line, 2, src)?;
    let iss = number_at(line, 3)?;
    let out_len = out_at(line, 4)? as usize;
    let seg = bytes_at(line, 5, seg)?;
    Some(Order::Segment {
        time,
        src,
        iss,
        out_len,
        seg,
    })
}

// abandon TIME ADDRESS PORT, and close likewise
fn read_release(line: &[u8], established: bool, addr: &mut [u8; MOST_BYTES]) -> Option<Order>
    ensures { (b : List ℕ) → request_read result addr.new b ≡ release_in established line.now }
{
    let time = number_at(line, 1)?;
    let addr = bytes_at(line, 2, addr)?;
    let port = number_at(line, 3)?;
    Some(Order::Release {
        established,
        time,
        addr,
        port,
    })
}

// resend TIME ADDRESS PORT OUT
fn read_resend(line: &[u8], addr: &mut [u8; MOST_BYTES]) -> Option<Order>
    ensures { (b : List ℕ) → request_read result addr.new b ≡ resend_in line.now }
{
    let time = number_at(line, 1)?;
    let addr = bytes_at(line, 2, addr)?;
    let port = number_at(line, 3)?;
    let out_len = out_at(line, 4)? as usize;
    Some(Order::Resend {
        time,
        addr,
        port,
        out_len,
    })
}

// Reads a request by a connection's name, or a key, which has one byte string at most.
fn read_named(line: &[u8], a: &mut [u8; MOST_BYTES]) -> Option<Order>
    ensures { (b : List ℕ) → request_read result a.new b ≡ first_case (drop 5 (cases line.now)) }
{
    if is_call(line, b"key", 2) {
        return read_key(line, a);
    }
    if is_call(line, b"abandon", 3) {
        return read_release(line, false, a);
    }
    if is_call(line, b"close", 3) {
        return read_release(line, true, a);
    }
    if is_call(line, b"resend", 4) {
        return read_resend(line, a);
    }
    None
}

// Reads a request, its byte strings to the start of two buffers, each long enough for any: `Order` says which is in which.
#[tactic(auto, unfolding(crate::specs::Request::request_in))]
pub(crate) fn read_request(
    line: &[u8],
    a: &mut [u8; MOST_BYTES],
    b: &mut [u8; MOST_BYTES],
) -> Option<Order>
    ensures { request_read result a.new b.new ≡ request_in line.now }
{
    if is_call(line, b"segment", 5) {
        return read_segment(line, a, b);
    }
    if is_call(line, b"start", 3) {
        return read_start(line, a, b);
    }
    if is_call(line, b"settings", 6) {
        return read_settings(line, Some(false), Some(FRESH_SHARE));
    }
    if is_call(line, b"settings", 7) {
        return read_settings(line, both_at(line, 7), Some(FRESH_SHARE));
    }
    if is_call(line, b"settings", 8) {
        return read_settings(line, both_at(line, 7), number_at(line, 8));
    }
    read_named(line, a)
}

// A request as it is read, with the two buffers.
#[derive(Clone, Copy, Drop)]
pub struct LineRead {
    pub order: Option<Order>,
    pub a: [u8; MOST_BYTES],
    pub b: [u8; MOST_BYTES],
}

// Reads a request for a caller that has no buffers for it.
pub fn read_line(line: &[u8]) -> LineRead
    ensures { request_read result.order result.a result.b ≡ request_in line.now }
{
    let mut a = [0u8; MOST_BYTES];
    let mut b = [0u8; MOST_BYTES];
    let order = read_request(line, &mut a, &mut b);
    LineRead { order, a, b }
}
