// Captures that are written have low bytes first and 2.4 for their version. They allow packets of 4,096 bytes and leave zone and accuracy at 0.
//
// A write that is done returns how many bytes it wrote. It leaves them at the output's start and the later bytes as they were; a refused one leaves all of it.
ghost use Rattle.std.specs.Prelude.{◌≡◌, length};
ghost use Rattle.lists.specs.Bytes.{overwrite};
ghost use Rattle.pcap.specs.Write.{file_header_bytes, head_bytes, record_bytes, file_check, record_check, put_by, writing};

use crate::file::FILE_HEADER;
use crate::record::{MOST_CAPTURED, RECORD_HEADER, RecordHead};
use segment::refusal::Refusal;

// Writes a capture's file header; 11 where there is no room.
#[tactic(auto, unfolding(crate::specs::Write::file_header_in))]
pub fn write_file_header(out: &mut [u8]) -> Result<usize, Refusal>
    ensures value { result ≡ writing (file_check (length out.old)) file_header_bytes }
    ensures out_after { out.new ≡ overwrite (put_by (file_check (length out.old)) file_header_bytes) out.old }
{
    if out.len() < FILE_HEADER {
        return Err(Refusal::Output);
    }
    let header = [
        0xD4u8, 0xC3, 0xB2, 0xA1, 2, 0, 4, 0, 0, 0, 0, 0, 0, 0, 0, 0, 0, 16, 0, 0, 101, 0, 0, 0,
    ];
    out[..FILE_HEADER].copy_from_slice(&header);
    Ok(FILE_HEADER)
}

// A record's header by value.
#[tactic(auto, unfolding(crate::specs::Write::head_in))]
fn head_bytes(head: RecordHead) -> [u8; 16]
    ensures { result ≡ head_bytes head.seconds head.micros head.captured head.original }
{
    let mut bytes = [0u8; 16];
    bytes[..4].copy_from_slice(&head.seconds.to_le_bytes());
    bytes[4..8].copy_from_slice(&head.micros.to_le_bytes());
    bytes[8..12].copy_from_slice(&head.captured.to_le_bytes());
    bytes[12..].copy_from_slice(&head.original.to_le_bytes());
    bytes
}

// Writes a record: 15 where the packet has more than 4,096 bytes, then 11 where there is no room.
pub fn write_record(
    out: &mut [u8],
    seconds: u32,
    micros: u32,
    original: u32,
    packet: &[u8],
) -> Result<usize, Refusal>
    ensures value { result ≡ writing (record_check (length packet.now) (length out.old)) (record_bytes seconds micros original packet.now) }
    ensures out_after { out.new ≡ overwrite (put_by (record_check (length packet.now) (length out.old)) (record_bytes seconds micros original packet.now)) out.old }
{
    let n = packet.len();
    if MOST_CAPTURED < n {
        return Err(Refusal::BadCapture);
    }
    let size = RECORD_HEADER + n;
    if out.len() < size {
        return Err(Refusal::Output);
    }
    let head = head_bytes(RecordHead {
        seconds,
        micros,
        captured: n as u32,
        original,
    });
    out[..RECORD_HEADER].copy_from_slice(&head);
    out[RECORD_HEADER..size].copy_from_slice(packet);
    Ok(size)
}
