// The file header of a capture, and the numbers of four bytes in a file of either byte order.
ghost use Rattle.std.specs.Prelude.{◌≡◌, ◌+◌, ◌≤◌, length};
ghost use Rattle.pcap.specs.File.{long_in, linked, header_of};

// How many bytes the file header has.
pub const FILE_HEADER: usize = 24;

// What a file with microseconds begins with.
pub const MAGIC: u32 = 0xA1B2C3D4;

// The link type of raw IP packets.
pub const RAW_IP: u32 = 101;

// Which byte of a number comes first in the file.
#[derive(Clone, Copy, Drop)]
pub enum ByteOrder {
    LowFirst,
    HighFirst,
}

// The number of four bytes at a place.
pub(crate) fn long_in(order: ByteOrder, s: &[u8], i: usize) -> u32
    requires { i + 4 ≤ length s.now }
    ensures { result ≡ long_in order s.now i }
{
    let bytes = [s[i], s[i + 1], s[i + 2], s[i + 3]];
    match order {
        ByteOrder::LowFirst => u32::from_le_bytes(bytes),
        ByteOrder::HighFirst => u32::from_be_bytes(bytes),
    }
}

// The byte order, where the packets are raw IP: the whole word counts, in that order.
#[tactic(auto, unfolding(crate::specs::File::linked))]
fn check_link(order: ByteOrder, s: &[u8]) -> Option<ByteOrder>
    requires { 24 ≤ length s.now }
    ensures { result ≡ linked order s.now }
{
    (long_in(order, s, 20) == RAW_IP).then_some(order)
}

// Reads the file header at a capture's start: the byte order of the file; none where the header is bad (document 02's number 15). Version, zone, accuracy
// and snap length are not looked at.
#[tactic(auto, unfolding(crate::specs::File::header_of))]
pub fn read_file_header(file: &[u8]) -> Option<ByteOrder>
    ensures { result ≡ header_of file.now }
{
    if file.len() < FILE_HEADER {
        return None;
    }
    if long_in(ByteOrder::LowFirst, file, 0) == MAGIC {
        return check_link(ByteOrder::LowFirst, file);
    }
    if long_in(ByteOrder::HighFirst, file, 0) == MAGIC {
        return check_link(ByteOrder::HighFirst, file);
    }
    None
}
