// A line's words, read: which request it is, its numbers, and the lengths of its byte strings, whose bytes go to the start of three buffers.
ghost use Rattle.std.specs.Prelude.{◌≡◌, List, ℕ};
ghost use Rattle.client_player.specs.Request.{ends_in, start_in, open_in, answer_in, failed_in, request_in};
ghost use Rattle.client_player.specs.Order.{ends_read, out_length, request_read};

use text::argument::{both_at, bytes_at, number_at, out_at};
use text::line::MOST_BYTES;
use text::word::is_call;

// What an opening and an answer begin with: the time, the lengths of the two addresses, both ports and our initial number.
#[derive(Clone, Copy, Drop)]
pub(crate) struct Ends {
    pub(crate) time: u64,
    pub(crate) own: usize,
    pub(crate) source: u16,
    pub(crate) server: usize,
    pub(crate) dest: u16,
    pub(crate) iss: u32,
}

// A request. A byte string is given by its length: own address, or the server's where there is no other, is in the first buffer, the server's in the second,
// data or a segment in the third.
#[derive(Clone, Copy, Drop)]
pub(crate) enum Order {
    Start {
        size: usize,
    },
    Open {
        ends: Ends,
        mss: u32,
        out_len: usize,
        offered: usize,
    },
    Answer {
        ends: Ends,
        sent: u32,
        seg: usize,
        both: bool,
    },
    Failed {
        time: u64,
        server: usize,
        port: u16,
    },
}

// How many bytes of output are lent.
pub(crate) fn out_len(order: Order) -> usize
    ensures { result ≡ out_length order }
{
    match order {
        Order::Open { out_len, .. } => out_len,
        _ => 0,
    }
}

// TIME OWN-ADDRESS OWN-PORT SERVER-ADDRESS SERVER-PORT OURS
fn read_ends(line: &[u8], own: &mut [u8; MOST_BYTES], server: &mut [u8; MOST_BYTES]) -> Option<Ends>
    ensures { ends_read result own.new server.new ≡ ends_in line.now }
{
    Some(Ends {
        time: number_at(line, 1)?,
        own: bytes_at(line, 2, own)?,
        source: number_at(line, 3)?,
        server: bytes_at(line, 4, server)?,
        dest: number_at(line, 5)?,
        iss: number_at(line, 6)?,
    })
}

// start FAMILY
fn read_start(line: &[u8]) -> Option<Order>
    ensures { (a b d : List ℕ) → request_read result a b d ≡ start_in line.now }
{
    let family: u64 = number_at(line, 1)?;
    Some(Order::Start {
        size: family as usize,
    })
}

// open TIME OWN-ADDRESS OWN-PORT SERVER-ADDRESS SERVER-PORT OURS MSS OUT DATA
fn read_open(
    line: &[u8],
    own: &mut [u8; MOST_BYTES],
    server: &mut [u8; MOST_BYTES],
    offered: &mut [u8; MOST_BYTES],
) -> Option<Order>
    ensures { request_read result own.new server.new offered.new ≡ open_in line.now }
{
    let ends = read_ends(line, own, server)?;
    let mss = number_at(line, 7)?;
    let out_len = out_at(line, 8)? as usize;
    let offered = bytes_at(line, 9, offered)?;
    Some(Order::Open {
        ends,
        mss,
        out_len,
        offered,
    })
}

// answer TIME OWN-ADDRESS OWN-PORT SERVER-ADDRESS SERVER-PORT OURS SENT SEGMENT, with new|both as it was read
fn read_answer(
    line: &[u8],
    own: &mut [u8; MOST_BYTES],
    server: &mut [u8; MOST_BYTES],
    seg: &mut [u8; MOST_BYTES],
    both: Option<bool>,
) -> Option<Order>
    ensures { request_read result own.new server.new seg.new ≡ answer_in both line.now }
{
    let ends = read_ends(line, own, server)?;
    let sent = number_at(line, 7)?;
    let seg = bytes_at(line, 8, seg)?;
    let both = both?;
    Some(Order::Answer {
        ends,
        sent,
        seg,
        both,
    })
}

// failed TIME SERVER-ADDRESS SERVER-PORT
fn read_failed(line: &[u8], server: &mut [u8; MOST_BYTES]) -> Option<Order>
    ensures { (b d : List ℕ) → request_read result server.new b d ≡ failed_in line.now }
{
    let time = number_at(line, 1)?;
    let server = bytes_at(line, 2, server)?;
    let port = number_at(line, 3)?;
    Some(Order::Failed { time, server, port })
}

// Reads a request, its byte strings to the start of three buffers, each long enough for any.
#[tactic(auto, unfolding(crate::specs::Request::request_in))]
pub(crate) fn read_request(
    line: &[u8],
    a: &mut [u8; MOST_BYTES],
    b: &mut [u8; MOST_BYTES],
    d: &mut [u8; MOST_BYTES],
) -> Option<Order>
    ensures { request_read result a.new b.new d.new ≡ request_in line.now }
{
    if is_call(line, b"open", 9) {
        return read_open(line, a, b, d);
    }
    if is_call(line, b"answer", 8) {
        return read_answer(line, a, b, d, Some(false));
    }
    if is_call(line, b"answer", 9) {
        return read_answer(line, a, b, d, both_at(line, 9));
    }
    if is_call(line, b"failed", 3) {
        return read_failed(line, a);
    }
    if is_call(line, b"start", 1) {
        return read_start(line);
    }
    None
}
