// The walk over a capture: openings with 100 bytes of TCP that are fed, and packets to another address that are skipped, one after the other.
use crate::calls::{add, first_listener};
use crate::data;
use endpoint::address::{Family, block_of};
use packet::write::write_packet;
use pcap::record::{RecordHead, packet_in};
use pcap::walker::{Taken, Walker, new_walker, take_next};
use pcap::write::{write_file_header, write_record};
use protocol::state::Listener;
use segment::refusal::Refusal;
use segment::write::LONGEST_SYN_ACK;
use text::part::{first, rest};
use text::put::Text;
use walk::feed::{feed, time_of};

const RECORDS: u64 = 1000;

// The file header, and records of 16 + 120 bytes.
const SIZE: usize = 136024;

// The data of an opening.
const DATA: usize = 72;

// Puts record n behind those before it.
fn put_record(file: &mut Text<'_>, n: u64) -> Result<(), Refusal> {
    let [.., high, low] = n.to_be_bytes();
    let source = [10, 0, high, low];
    let dest = [192, 0, 2, (2 + n % 2) as u8];
    let bytes = data::bytes();
    let mut buffer = [0u8; data::LONGEST];
    let opening = data::put_opening(
        &mut buffer,
        &source,
        (40000 + n % 1000) as u16,
        &[],
        first(&bytes, DATA),
    );
    let mut packet = [0u8; 1560];
    let source = block_of(&source);
    let dest = block_of(&dest);
    let m = write_packet(&mut packet, Family::V4, source, dest, opening)?;
    let packet = first(&packet, m);
    let mut record = [0u8; 1600];
    let r = write_record(&mut record, 1, 999999, (m % 65536) as u32, packet)?;
    file.put(first(&record, r));
    Ok(())
}

fn put_capture(file: &mut [u8; SIZE]) -> Result<(), Refusal> {
    let at = write_file_header(file)?;
    let mut file = Text { out: file, at };
    for n in 0..RECORDS {
        put_record(&mut file, n)?;
    }
    Ok(())
}

// A walk: the listener and the walker, where it goes on, and the digest.
#[derive(Drop)]
struct CaptureWalk {
    listener: Listener,
    walker: Walker,
    at: usize,
    digest: u64,
}

impl CaptureWalk {
    // Feeds the record at the walk's place.
    fn feed_record(&mut self, file: &[u8], head: RecordHead) {
        let mut out = [0u8; LONGEST_SYN_ACK];
        let fed = feed(
            self.listener,
            self.walker.records,
            head.seconds,
            head.micros,
            packet_in(rest(file, self.at), head.captured),
            &mut out,
        );
        let outcome = fed.outcome;
        self.listener = outcome.listener;
        let time = time_of(head.seconds, head.micros);
        let timed = self.digest.wrapping_add(time);
        self.digest = add(timed, outcome.event, outcome.written, &out);
    }

    // Takes the next record; behind the last one the walk begins anew, and behind the file header it takes the first at once.
    fn take_record(&mut self, file: &[u8]) {
        let step = take_next(self.walker, file, self.at);
        match step.taken {
            Taken::Record(head) => self.feed_record(file, head),
            Taken::Opened(_) => {}
            _ => {
                self.walker = new_walker();
                self.at = 0;
                return;
            }
        }
        self.walker = step.walker;
        self.at = step.next;
    }
}

// As many turns as the records of so many walks take: a walk takes two more, for the file header and for the end.
fn turns_of(count: u64) -> u64 {
    let c = count % 1000000000000;
    c + c / RECORDS * 2 + 1
}

pub(crate) fn walk(count: u64) -> Result<u64, Refusal> {
    let mut file = [0u8; SIZE];
    put_capture(&mut file)?;
    let mut walk = CaptureWalk {
        listener: first_listener(),
        walker: new_walker(),
        at: 0,
        digest: 0,
    };
    for _ in 0..turns_of(count) {
        walk.take_record(&file);
    }
    Ok(walk.digest)
}
