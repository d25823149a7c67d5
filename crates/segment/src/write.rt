// The segments that are written: the listener's SYN-ACK and the client's opening (RFC 9293, 3.1; RFC 7413, 4.1.1 and 9).
//
// A write leaves its bytes at the output's start and the later bytes as they were, and returns how many bytes it wrote. Nothing is
// written, and 0 returned, where the output is too short, the addresses are not of one family, a Fast Open option is asked for that
// may not have a cookie of that length, or the segment would have more than 1,520 bytes (`can_write` in specs/Write.antt).
ghost use Rattle.std.specs.Prelude.{◌≡◌, ◌+◌, ◌-◌, ◌<◌, ◌≤◌, true, ◌++◌, length, take, drop, replicate, if◌then◌else◌, IfSome};
ghost use Rattle.std.specs.Bool.{then_some};
ghost use Rattle.segment.specs.Checksum.{ones_sum, complement, one_family, pseudo_header};
ghost use Rattle.segment.specs.Options.{prefix_length};
ghost use Rattle.segment.specs.Write.{prefix_bytes, padding, option_allowed, option_bytes, option_length, header_bytes, options_for, length_for, can_write, written, syn_ack_bytes, opening_bytes};
ghost use Rattle.lists.specs.Bytes.{overwrite};

use crate::checksum::{add_bytes, is_one_family, pseudo_sum};
use crate::header::{ACK, LONGEST_SEGMENT, SYN};
use crate::options::{Coding, is_cookie_length};
use crate::sequence::next_after;
use lists::copy::copy;

// The most bytes of options and payload.
const MOST_BODY: usize = LONGEST_SEGMENT - 20;

// How many bytes of output a SYN-ACK and an opening ask for.
pub const LONGEST_SYN_ACK: usize = 36;

pub const LONGEST_OPENING: usize = 1504;

// The fields of a segment to write, besides its cookie and its data. `fast`: with a Fast Open option, in this coding.
#[derive(Clone, Copy, Drop)]
pub(crate) struct Outgoing {
    pub source: u16,
    pub dest: u16,
    pub seq: u32,
    pub ack: u32,
    pub flags: u8,
    pub mss: u16,
    pub fast: bool,
    pub coding: Coding,
}

// A SYN-ACK, document 01's answer: both initial numbers, how many bytes of data were accepted, and whether a fresh cookie goes with it,
// in this coding.
#[derive(Clone, Copy, Drop)]
pub struct SynAck {
    pub source: u16,
    pub dest: u16,
    pub iss: u32,
    pub irs: u32,
    pub accepted: u32,
    pub mss: u16,
    pub fresh: bool,
    pub coding: Coding,
}

// An opening: our initial number, and whether a Fast Open option goes with it.
#[derive(Clone, Copy, Drop)]
pub struct Opening {
    pub source: u16,
    pub dest: u16,
    pub iss: u32,
    pub mss: u16,
    pub fast: bool,
}

// Puts bytes at a place, and returns the place after them.
fn append(out: &mut [u8], at: usize, src: &[u8]) -> usize
    requires { at + length src.now ≤ length out.old }
    ensures value { result ≡ at + length src.now }
    ensures out_after { out.new ≡ take at out.old ++ (src.now ++ drop (at + length src.now) out.old) }
{
    let n = copy(src, &mut out[at..]);
    at + n
}

// Kind 1 up to a multiple of four.
fn pad(out: &mut [u8], at: usize) -> usize
    requires { at + padding at ≤ length out.old }
    ensures value { result ≡ at + padding at }
    ensures out_after { out.new ≡ take at out.old ++ (replicate (padding at) 1 ++ drop (at + padding at) out.old) }
{
    let n = (4 - at % 4) % 4;
    append(out, at, &[1; 3][..n])
}

// What stands before a cookie of n bytes.
fn put_prefix(out: &mut [u8], at: usize, coding: Coding, n: usize) -> usize
    requires { (n ≤ 40) × (at + length (prefix_bytes coding n) ≤ length out.old) }
    ensures value { result ≡ at + length (prefix_bytes coding n) }
    ensures out_after { out.new ≡ take at out.old ++ (prefix_bytes coding n ++ drop (at + length (prefix_bytes coding n)) out.old) }
{
    match coding {
        Coding::New => append(out, at, &[34, (n + 2) as u8]),
        Coding::Older => append(out, at, &[254, (n + 4) as u8, 0xF9, 0x89]),
    }
}

// The option writer, lent the output from byte 20.
fn put_options(out: &mut [u8], mss: u16, fast: bool, coding: Coding, cookie: &[u8]) -> usize
    requires { (length (option_bytes mss fast coding cookie.now) ≤ 40) × (length (option_bytes mss fast coding cookie.now) ≤ length out.old) }
    ensures value { result ≡ length (option_bytes mss fast coding cookie.now) }
    ensures out_after { out.new ≡ overwrite (option_bytes mss fast coding cookie.now) out.old }
{
    let [high, low] = mss.to_be_bytes();
    let a = append(out, 0, &[2, 4, high, low]);
    if !fast {
        return a;
    }
    let b = put_prefix(out, a, coding, cookie.len());
    let c = append(out, b, cookie);
    pad(out, c)
}

// Options and payload, from byte 20 on. The data copier is lent the output after the header. Returns the length of the options.
fn put_body(out: &mut [u8], f: Outgoing, cookie: &[u8], payload: &[u8]) -> usize
    requires { (length (options_for f cookie.now) ≤ 40) × (20 + length (options_for f cookie.now) + length payload.now ≤ length out.old) }
    ensures value { result ≡ length (options_for f cookie.now) }
    ensures out_after { out.new ≡ take 20 out.old ++ (options_for f cookie.now ++ (payload.now ++ drop (20 + result + length payload.now) out.old)) }
{
    let coding = f.coding;
    let m = put_options(&mut out[20..], f.mss, f.fast, coding, cookie);
    let end = 20 + m;
    copy(payload, &mut out[end..]);
    m
}

// A header by value: window 65,535, urgent 0.
fn header(f: Outgoing, offset: u8, check: u16) -> [u8; 20]
    requires { offset < 16 }
    ensures { result ≡ header_bytes f offset check }
{
    let source = f.source.to_be_bytes();
    let dest = f.dest.to_be_bytes();
    let seq = f.seq.to_be_bytes();
    let ack = f.ack.to_be_bytes();
    let check = check.to_be_bytes();
    [
        source[0],
        source[1],
        dest[0],
        dest[1],
        seq[0],
        seq[1],
        seq[2],
        seq[3],
        ack[0],
        ack[1],
        ack[2],
        ack[3],
        offset * 16,
        f.flags,
        255,
        255,
        check[0],
        check[1],
        0,
        0,
    ]
}

// The header of a segment of n bytes whose options and data stand from byte 20 on.
fn put_header(out: &mut [u8], src: &[u8], dst: &[u8], f: Outgoing, offset: u8, n: usize)
    requires { (one_family src.now dst.now ≡ true) × ((offset < 16) × ((20 ≤ n) × (n ≤ length out.old))) }
    ensures { out.new ≡ header_bytes f offset (complement (ones_sum 0 (pseudo_header src.now dst.now n ++ (header_bytes f offset 0 ++ take (n - 20) (drop 20 out.old))))) ++ drop 20 out.old }
{
    let without_checksum = header(f, offset, 0);
    let sum = add_bytes(
        add_bytes(pseudo_sum(src, dst, n), &without_checksum),
        &out[20..n],
    );
    let with_checksum = header(f, offset, 65535 - sum);
    copy(&with_checksum, out);
}

// How many bytes stand before a cookie.
fn prefix_length(coding: Coding) -> usize
    ensures { result ≡ prefix_length coding }
{
    match coding {
        Coding::New => 2,
        Coding::Older => 4,
    }
}

// Whether a segment may have these options: a Fast Open option has no cookie, or n bytes of one.
#[tactic(auto, unfolding(crate::specs::Write::option_allowed))]
fn is_option_allowed(fast: bool, n: usize) -> bool
    ensures { result ≡ option_allowed fast n }
{
    !fast || n == 0 || is_cookie_length(n)
}

// How many bytes of options a segment has, with a cookie of n bytes where there is a Fast Open option; none where it may not have them.
fn allowed_length(fast: bool, coding: Coding, n: usize) -> Option<usize>
    ensures value { result ≡ then_some (option_allowed fast n) (option_length fast coding n) }
    ensures most { IfSome result (λ m. m ≤ 24) }
{
    if !is_option_allowed(fast, n) {
        return None;
    }
    if fast {
        Some(4 + (n + prefix_length(coding)).div_ceil(4) * 4)
    } else {
        Some(4)
    }
}

// How many bytes of options are written, with a cookie of n bytes where there is a Fast Open option; 0 where a segment may not have them.
pub fn option_length(fast: bool, coding: Coding, n: usize) -> usize
    ensures { (result ≡ (if option_allowed fast n then option_length fast coding n else 0)) × (result ≤ 24) }
{
    allowed_length(fast, coding, n).unwrap_or(0)
}

// The length of a segment that can be written to an output of this length.
fn writable_length(
    src: &[u8],
    dst: &[u8],
    f: Outgoing,
    cookie: &[u8],
    payload: &[u8],
    out_len: usize,
) -> Option<usize>
    ensures { result ≡ then_some (can_write src.now dst.now f cookie.now payload.now out_len) (length_for f cookie.now payload.now) }
{
    if !is_one_family(src, dst) {
        return None;
    }
    let m = allowed_length(f.fast, f.coding, cookie.len())?;
    if MOST_BODY - m < payload.len() {
        return None;
    }
    let n = 20 + m + payload.len();
    (n <= out_len).then_some(n)
}

// Writes a segment; nothing, and returns 0, where it cannot be written.
fn write_segment(
    out: &mut [u8],
    src: &[u8],
    dst: &[u8],
    f: Outgoing,
    cookie: &[u8],
    payload: &[u8],
) -> usize
    ensures value { result ≡ length (written src.now dst.now f cookie.now payload.now (length out.old)) }
    ensures out_after { out.new ≡ overwrite (written src.now dst.now f cookie.now payload.now (length out.old)) out.old }
{
    let Some(n) = writable_length(src, dst, f, cookie, payload, out.len()) else {
        return 0;
    };
    let m = put_body(out, f, cookie, payload);
    put_header(out, src, dst, f, ((20 + m) / 4) as u8, n);
    n
}

// Writes the SYN-ACK to an opening: 24 bytes, or 36 with a fresh cookie; none, and returns 0, where it cannot be written.
pub fn write_syn_ack(out: &mut [u8], src: &[u8], dst: &[u8], a: SynAck, cookie: [u8; 8]) -> usize
    ensures value { result ≡ length (syn_ack_bytes src.now dst.now a cookie (length out.old)) }
    ensures out_after { out.new ≡ overwrite (syn_ack_bytes src.now dst.now a cookie (length out.old)) out.old }
{
    let coding = a.coding;
    let f = Outgoing {
        source: a.source,
        dest: a.dest,
        seq: a.iss,
        ack: next_after(a.irs, a.accepted),
        flags: SYN + ACK,
        mss: a.mss,
        fast: a.fresh,
        coding,
    };
    write_segment(out, src, dst, f, &cookie, &src[..0])
}

// Writes an opening with its options and its payload; nothing, and returns 0, where it cannot be written.
pub fn write_opening(
    out: &mut [u8],
    src: &[u8],
    dst: &[u8],
    o: Opening,
    cookie: &[u8],
    payload: &[u8],
) -> usize
    ensures value { result ≡ length (opening_bytes src.now dst.now o cookie.now payload.now (length out.old)) }
    ensures out_after { out.new ≡ overwrite (opening_bytes src.now dst.now o cookie.now payload.now (length out.old)) out.old }
{
    let f = Outgoing {
        source: o.source,
        dest: o.dest,
        seq: o.iss,
        ack: 0,
        flags: SYN,
        mss: o.mss,
        fast: o.fast,
        coding: Coding::New,
    };
    write_segment(out, src, dst, f, cookie, payload)
}
