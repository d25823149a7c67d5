// The header of a segment, its kind and its parts (RFC 9293, 3.1).
ghost use Rattle.std.specs.Prelude.{◌≡◌, ◌-◌, ◌*◌, ◌≤◌, length, take, drop};
ghost use Rattle.segment.specs.Bytes.{byte_at};
ghost use Rattle.segment.specs.Header.{malformed, fields_of, shape_of, option_area, payload_of, SYN, has, kind_of, is_syn_ack};

use crate::number::{long_at, word_at};

// The longest segment that is read or written, in bytes.
pub const LONGEST_SEGMENT: usize = 1520;

// The fields of a header that are used. The offset is its length in 32-bit words.
#[derive(Clone, Copy, Drop)]
pub struct Header {
    pub source: u16,
    pub dest: u16,
    pub seq: u32,
    pub ack: u32,
    pub offset: u8,
    pub flags: u8,
}

// Document 01's opening, reset and completion, and all else.
#[derive(Clone, Copy, Drop)]
pub enum Kind {
    Syn,
    Rst,
    Ack,
    Other,
}

// Whether a segment is refused for its shape: its length, its data offset, or a header that is longer than it.
#[tactic(auto, unfolding(crate::specs::Header::malformed))]
pub fn is_malformed(seg: &[u8]) -> bool
    ensures { result ≡ malformed seg.now }
{
    let n = seg.len();
    n < 20 || LONGEST_SEGMENT < n || seg[12] / 16 < 5 || n < 4 * (seg[12] / 16) as usize
}

// The fields of a segment that is long enough to have a header.
#[tactic(auto, unfolding(crate::specs::Header::fields_of))]
fn fields(seg: &[u8]) -> Header
    requires { 20 ≤ length seg.now }
    ensures { result ≡ fields_of seg.now }
{
    Header {
        source: word_at(seg, 0),
        dest: word_at(seg, 2),
        seq: long_at(seg, 4),
        ack: long_at(seg, 8),
        offset: seg[12] / 16,
        flags: seg[13],
    }
}

// The header of a segment, or that it is malformed.
#[tactic(auto, using(crate::proofs::Malformed::formed), unfolding(crate::specs::Header::shape_of))]
pub fn read_header(seg: &[u8]) -> Option<Header>
    ensures { result ≡ shape_of seg.now }
{
    if is_malformed(seg) {
        None
    } else {
        Some(fields(seg))
    }
}

// At most `len` bytes from `at` on.
pub fn part(s: &[u8], at: usize, len: usize) -> &[u8]
    ensures { result.now ≡ take len (drop at s.now) }
{
    let rest = s.get(at..).unwrap_or(&[]);
    rest.get(..len).unwrap_or(rest)
}

// The option area of a segment whose data offset has been read: from byte 20 to the header's end.
pub fn area_within(seg: &[u8], offset: u8) -> &[u8]
    ensures { result.now ≡ take (4 * offset - 20) (drop 20 seg.now) }
{
    part(seg, 20, (4 * offset as usize).saturating_sub(20))
}

// The payload of a segment whose data offset has been read.
pub fn payload_after(seg: &[u8], offset: u8) -> &[u8]
    ensures { result.now ≡ drop (4 * offset) seg.now }
{
    seg.get(4 * offset as usize..).unwrap_or(&[])
}

// The option area, as a part of the segment: at most 40 bytes; empty where the segment is malformed.
#[tactic(auto, using(crate::proofs::Malformed::formed), unfolding(crate::specs::Header::option_area))]
pub fn option_area(seg: &[u8]) -> &[u8]
    ensures { result.now ≡ option_area seg.now }
{
    if is_malformed(seg) {
        &[]
    } else {
        area_within(seg, seg[12] / 16)
    }
}

// The payload, as a part of the segment; empty where the segment is malformed.
#[tactic(auto, using(crate::proofs::Malformed::formed), unfolding(crate::specs::Header::payload_of))]
pub fn payload(seg: &[u8]) -> &[u8]
    ensures { result.now ≡ payload_of seg.now }
{
    if is_malformed(seg) {
        &[]
    } else {
        payload_after(seg, seg[12] / 16)
    }
}

// The control bits, by their weight in the flags.
pub(crate) const FIN: u8 = 1;

pub(crate) const SYN: u8 = 2;

pub(crate) const RST: u8 = 4;

pub(crate) const ACK: u8 = 16;

#[tactic(auto, unfolding(crate::specs::Header::has))]
fn has_bit(flags: u8, bit: u8) -> bool
    requires { 1 ≤ bit }
    ensures { result ≡ has flags bit }
{
    flags / bit % 2 == 1
}

// Whether a segment has the SYN flag; false where it has no byte of flags.
#[tactic(auto, unfolding(crate::specs::Header::has))]
pub(crate) fn has_syn(seg: &[u8]) -> bool
    ensures { result ≡ has (byte_at seg.now 13) SYN }
{
    13 < seg.len() && has_bit(seg[13], SYN)
}

// The kind of segment, by its flags.
#[tactic(auto, unfolding(crate::specs::Header::kind_of))]
pub fn kind_of(flags: u8) -> Kind
    ensures { result ≡ kind_of flags }
{
    let bits = (
        has_bit(flags, SYN),
        has_bit(flags, ACK),
        has_bit(flags, RST),
        has_bit(flags, FIN),
    );
    match bits {
        (true, false, false, false) => Kind::Syn,
        (true, _, _, _) => Kind::Other,
        (false, _, true, _) => Kind::Rst,
        (false, true, false, _) => Kind::Ack,
        (false, false, false, _) => Kind::Other,
    }
}

// Whether the flags are those of a SYN-ACK.
#[tactic(auto, unfolding(crate::specs::Header::is_syn_ack))]
pub fn is_syn_ack(flags: u8) -> bool
    ensures { result ≡ is_syn_ack flags }
{
    has_bit(flags, SYN) && has_bit(flags, ACK) && !has_bit(flags, RST) && !has_bit(flags, FIN)
}
