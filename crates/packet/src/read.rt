// Packets read: whether one is whole, carries TCP and is to an address, and its parts. All else is skipped, and no error.
ghost use Rattle.std.specs.Prelude.{◌≡◌};
ghost use Rattle.packet.specs.Ip.{header_length, is_whole_v4, is_whole_v6, is_whole, source_at, source_of, dest_of, carried_to, tcp_of};

use endpoint::address::{Family, block_of, same_block, size_of};
use segment::header::part;
use segment::number::word16;

// TCP's number among the protocols.
pub(crate) const TCP: u8 = 6;

// The least header of a version, which is that of the packets that are written.
pub const HEADER_V4: usize = 20;

pub const HEADER_V6: usize = 40;

// Whether a packet is a whole IPv4 one with TCP: no fragment, its header inside it, its total length its own. The header's checksum is not looked at.
#[tactic(auto, unfolding(crate::specs::Ip::is_whole_v4))]
fn is_whole_v4(p: &[u8]) -> bool
    ensures { result ≡ is_whole_v4 p.now }
{
    let n = p.len();
    if n < HEADER_V4 {
        return false;
    }
    let header = 4 * ((p[0] % 16) as usize);
    // of byte 6 the bit for more fragments, and the offset's high bits
    p[0] / 16 == 4
        && HEADER_V4 <= header
        && header <= n
        && word16(p[2], p[3]) as usize == n
        && p[6] % 64 == 0
        && p[7] == 0
        && p[9] == TCP
}

// Whether a packet is a whole IPv6 one with TCP and no extension header.
#[tactic(auto, unfolding(crate::specs::Ip::is_whole_v6))]
fn is_whole_v6(p: &[u8]) -> bool
    ensures { result ≡ is_whole_v6 p.now }
{
    let n = p.len();
    HEADER_V6 <= n && p[0] / 16 == 6 && word16(p[4], p[5]) as usize + HEADER_V6 == n && p[6] == TCP
}

fn is_whole(f: Family, p: &[u8]) -> bool
    ensures { result ≡ is_whole f p.now }
{
    match f {
        Family::V4 => is_whole_v4(p),
        Family::V6 => is_whole_v6(p),
    }
}

// Where the TCP segment of a whole packet begins.
#[tactic(auto, unfolding(crate::specs::Ip::header_length))]
fn header_length(f: Family, p: &[u8]) -> usize
    ensures { result ≡ header_length f p.now }
{
    match f {
        Family::V4 => {
            if p.is_empty() {
                return 0;
            }
            4 * ((p[0] % 16) as usize)
        }
        Family::V6 => HEADER_V6,
    }
}

// Where the source address begins; the destination address is behind it.
fn source_at(f: Family) -> usize
    ensures { result ≡ source_at f }
{
    match f {
        Family::V4 => 12,
        Family::V6 => 8,
    }
}

// The source address, as a part of the packet.
pub fn source_part(f: Family, p: &[u8]) -> &[u8]
    ensures { result.now ≡ source_of f p.now }
{
    part(p, source_at(f), size_of(f))
}

// The destination address.
fn dest_part(f: Family, p: &[u8]) -> &[u8]
    ensures { result.now ≡ dest_of f p.now }
{
    part(p, source_at(f) + size_of(f), size_of(f))
}

// Where the TCP segment begins in a whole packet to the address whose block this is; any other packet is skipped.
#[tactic(auto, using(crate::proofs::Found::dest_block), unfolding(crate::specs::Ip::carried_to, crate::specs::Ip::is_to))]
pub fn find_tcp(f: Family, own: [u8; 16], p: &[u8]) -> Option<usize>
    ensures { result ≡ carried_to f own p.now }
{
    (is_whole(f, p) && same_block(block_of(dest_part(f, p)), own)).then_some(header_length(f, p))
}

// The TCP segment that was found, as a part of the packet: empty where none was.
pub fn tcp_part(p: &[u8], carried: Option<usize>) -> &[u8]
    ensures { result.now ≡ tcp_of p.now carried }
{
    match carried {
        None => &p[..0],
        Some(start) => part(p, start, p.len()),
    }
}
