// A capture in a lent buffer, walked record by record: a struct that holds the buffer and a place in it. Its methods are thin; the work is
// `next_at`'s.
ghost use Rattle.std.specs.Prelude.{◌≡◌};
ghost use Rattle.pcap.specs.Record.{next_in};

use crate::file::FILE_HEADER;
use crate::record::{Next, next_at};

#[derive(Clone, Copy, Drop)]
pub struct Capture<'a> {
    pub file: &'a [u8],
    pub at: usize,
}

impl<'a> Capture<'a> {
    // At the first record.
    pub fn open(file: &'a [u8]) -> Capture<'a>
        ensures { (result.file ≡ file.entry) × (result.at ≡ 24) }
    {
        Capture {
            file,
            at: FILE_HEADER,
        }
    }

    // What stands at the place.
    pub fn next(self) -> Next
        ensures { result ≡ next_in self.entry.file.now self.entry.at }
    {
        next_at(self.file, self.at)
    }

    // The same capture at another place.
    pub fn moved(self, at: usize) -> Capture<'a>
        ensures { (result.file ≡ self.entry.file) × (result.at ≡ at) }
    {
        Capture { at, ..self }
    }

    // The place.
    pub fn place(self) -> usize
        ensures { result ≡ self.entry.at }
    {
        self.at
    }

    // The buffer.
    pub fn file(self) -> &'a [u8]
        ensures { result ≡ self.entry.file }
    {
        self.file
    }
}

// What stands at a place of a capture in a lent buffer, for a caller that has no such struct.
pub fn next_in(buffer: &[u8], at: usize) -> Next
    ensures { result ≡ next_in buffer.now at }
{
    Capture { file: buffer, at }.next()
}
