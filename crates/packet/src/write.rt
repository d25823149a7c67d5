// Packets written around a TCP segment, so that a capture can carry it. An IPv4 header has 20 bytes, no service, no identification, 64 hops to live, a checksum
// that is right and the bit against fragments; an IPv6 header no class, no flow, 64 hops and TCP next.
ghost use Rattle.std.specs.Prelude.{◌≡◌, ◌++◌, ◌+◌, ◌≤◌, length};
ghost use Rattle.lists.specs.Bytes.{overwrite};
ghost use Rattle.pcap.specs.Write.{put_by, writing};
ghost use Rattle.packet.specs.Ip.{least_header};
ghost use Rattle.packet.specs.Write.{header_v4, header_v6, checked_v4, packet_check, packet_bytes};

use crate::read::{HEADER_V4, HEADER_V6, TCP};
use endpoint::address::Family;
use pcap::record::MOST_CAPTURED;
use segment::checksum::add_bytes;
use segment::refusal::Refusal;

// Time to live, or hop limit.
const HOPS: u8 = 64;

fn least_header(f: Family) -> usize
    ensures { result ≡ least_header f }
{
    match f {
        Family::V4 => HEADER_V4,
        Family::V6 => HEADER_V6,
    }
}

// An IPv4 header for a segment of n bytes, between the addresses at the start of two blocks.
#[tactic(auto, unfolding(crate::specs::Write::header_v4))]
fn header_v4(own: [u8; 16], dst: [u8; 16], n: usize, check: u16) -> [u8; 20]
    requires { n ≤ 4096 }
    ensures { result ≡ header_v4 own dst n check }
{
    let mut header = [0u8; HEADER_V4];
    header[0] = 0x45;
    header[2..4].copy_from_slice(&((HEADER_V4 + n) as u16).to_be_bytes());
    header[6] = 0x40;
    header[8] = HOPS;
    header[9] = TCP;
    header[10..12].copy_from_slice(&check.to_be_bytes());
    header[12..16].copy_from_slice(&own[..4]);
    header[16..].copy_from_slice(&dst[..4]);
    header
}

// With the checksum that makes its sum 65,535.
#[tactic(auto, unfolding(crate::specs::Write::checked_v4))]
fn checked_v4(own: [u8; 16], dst: [u8; 16], n: usize) -> [u8; 20]
    requires { n ≤ 4096 }
    ensures { result ≡ checked_v4 own dst n }
{
    let unchecked = header_v4(own, dst, n, 0);
    let sum = add_bytes(0, &unchecked);
    header_v4(own, dst, n, 65535 - sum)
}

// An IPv6 header.
#[tactic(auto, unfolding(crate::specs::Write::header_v6))]
fn header_v6(own: [u8; 16], dst: [u8; 16], n: usize) -> [u8; 40]
    requires { n ≤ 4096 }
    ensures { result ≡ header_v6 own dst n }
{
    let mut header = [0u8; HEADER_V6];
    header[0] = 0x60;
    header[4..6].copy_from_slice(&(n as u16).to_be_bytes());
    header[6] = TCP;
    header[7] = HOPS;
    header[8..24].copy_from_slice(&own);
    header[24..].copy_from_slice(&dst);
    header
}

// Puts a header, and the segment behind it.
#[tactic(auto, using(pcap::proofs::Written::put_whole))]
fn put_behind(out: &mut [u8], header: &[u8], tcp: &[u8])
    requires { (length header.now ≤ 40) × (length header.now + length tcp.now ≤ length out.old) }
    ensures { out.new ≡ overwrite (header.now ++ tcp.now) out.old }
{
    let n = header.len();
    out[..n].copy_from_slice(header);
    out[n..n + tcp.len()].copy_from_slice(tcp);
}

// Puts the packet of a segment, between the addresses of a family that two blocks have.
#[tactic(auto, unfolding(crate::specs::Write::packet_bytes))]
fn put_packet(out: &mut [u8], f: Family, own: [u8; 16], dst: [u8; 16], tcp: &[u8])
    requires { (least_header f + length tcp.now ≤ 4096) × (least_header f + length tcp.now ≤ length out.old) }
    ensures { out.new ≡ overwrite (packet_bytes f own dst tcp.now) out.old }
{
    match f {
        Family::V4 => {
            let header = checked_v4(own, dst, tcp.len());
            put_behind(out, &header, tcp);
        }
        Family::V6 => {
            let header = header_v6(own, dst, tcp.len());
            put_behind(out, &header, tcp);
        }
    }
}

// Writes the packet that carries a segment from our address to another: 15 where it has more than the 4,096 bytes of a record, then 11 where there is no room.
#[tactic(auto, using(crate::proofs::Found::header_bounds, crate::proofs::Found::packet_length))]
pub fn write_packet(
    out: &mut [u8],
    f: Family,
    own: [u8; 16],
    dst: [u8; 16],
    tcp: &[u8],
) -> Result<usize, Refusal>
    ensures value { result ≡ writing (packet_check f (length tcp.now) (length out.old)) (packet_bytes f own dst tcp.now) }
    ensures out_after { out.new ≡ overwrite (put_by (packet_check f (length tcp.now) (length out.old)) (packet_bytes f own dst tcp.now)) out.old }
{
    let header = least_header(f);
    let n = tcp.len();
    if MOST_CAPTURED - header < n {
        return Err(Refusal::BadCapture);
    }
    if out.len() < header + n {
        return Err(Refusal::Output);
    }
    put_packet(out, f, own, dst, tcp);
    Ok(header + n)
}
