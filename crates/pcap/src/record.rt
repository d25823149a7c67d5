// The records of a capture: what stands at a place.
ghost use Rattle.std.specs.Prelude.{◌≡◌, ◌≤◌, length, take, drop};
ghost use Rattle.pcap.specs.Record.{head_of, next_of, place_from, next_in, check_of};

use crate::file::{ByteOrder, FILE_HEADER, long_in, read_file_header};
use segment::header::part;
use segment::refusal::Refusal;

// How many bytes a record's header has.
pub const RECORD_HEADER: usize = 16;

// The most bytes of a packet that a record may have.
pub const MOST_CAPTURED: usize = 4096;

// A record's header: the time in seconds and microseconds, how many bytes of the packet were captured, and how many it had.
#[derive(Clone, Copy, Drop)]
pub struct RecordHead {
    pub seconds: u32,
    pub micros: u32,
    pub captured: u32,
    pub original: u32,
}

// What comes next in a capture: the header of a whole record, nothing at the end, or why the walk is refused: a record that is cut (document 02's number 14),
// or what no capture has (15).
pub type Next = Result<Option<RecordHead>, Refusal>;

// The refusal that the end of a walk comes to.
pub fn check_of(next: Next) -> Result<(), Refusal>
    ensures { result ≡ check_of next }
{
    next.map(|_| ())
}

// The header at the start of what is left.
#[tactic(auto, unfolding(crate::specs::Record::head_of))]
fn head_of(order: ByteOrder, rest: &[u8]) -> RecordHead
    requires { 16 ≤ length rest.now }
    ensures { result ≡ head_of order rest.now }
{
    RecordHead {
        seconds: long_in(order, rest, 0),
        micros: long_in(order, rest, 4),
        captured: long_in(order, rest, 8),
        original: long_in(order, rest, 12),
    }
}

// What stands at the start of what is left of a capture. A header that states too many bytes is refused 15 even where the bytes are cut.
#[tactic(auto, unfolding(crate::specs::Record::next_of, crate::specs::Record::bodied))]
pub fn next_record(order: ByteOrder, rest: &[u8]) -> Next
    ensures { result ≡ next_of order rest.now }
{
    let n = rest.len();
    if rest.is_empty() {
        return Ok(None);
    }
    if n < RECORD_HEADER {
        return Err(Refusal::CutRecord);
    }
    let head = head_of(order, rest);
    let captured = head.captured as usize;
    if MOST_CAPTURED < captured {
        return Err(Refusal::BadCapture);
    }
    if n - RECORD_HEADER < captured {
        return Err(Refusal::CutRecord);
    }
    Ok(Some(head))
}

// What is left of a capture from a place on.
pub fn rest_from(file: &[u8], at: usize) -> &[u8]
    ensures { result.now ≡ drop at file.now }
{
    part(file, at, file.len())
}

// The first record stands behind the file header.
fn place_from(at: usize) -> usize
    ensures { result ≡ place_from at }
{
    usize::max(at, FILE_HEADER)
}

// The reader: what stands at a place of a whole capture. A place within the file header stands for the first record.
#[tactic(auto, unfolding(crate::specs::Record::next_in))]
pub fn next_at(file: &[u8], at: usize) -> Next
    ensures { result ≡ next_in file.now at }
{
    let order = read_file_header(file).ok_or(Refusal::BadCapture)?;
    next_record(order, rest_from(file, place_from(at)))
}

// The packet of the record at the start of what is left, as a part of it.
pub fn packet_in(rest: &[u8], captured: u32) -> &[u8]
    ensures { result.now ≡ take captured (drop 16 rest.now) }
{
    part(rest, RECORD_HEADER, captured as usize)
}
