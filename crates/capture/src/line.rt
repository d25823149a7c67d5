// What is gathered to be written later: the lines of records, of the end, and of how far the walk is; and packets.
use endpoint::address::block_of;
use listener::calls::pending;
use packet::read::source_part;
use packet::write::write_packet;
use pcap::record::{MOST_CAPTURED, RECORD_HEADER, RecordHead};
use pcap::write::{write_file_header, write_record};
use player::line::put_fields;
use protocol::outcome::Outcome;
use protocol::state::LocalEndpoint;
use text::output::is_kept;
use text::part::first;
use text::put::Text;

// How many bytes of output are lent to a call.
pub(crate) const LENT: usize = 64;

// The longest record.
pub(crate) const LONGEST_RECORD: usize = RECORD_HEADER + MOST_CAPTURED;

// Bytes gathered one behind the other. What there is no room for is left out.
#[derive(Drop)]
pub(crate) struct Gathered<const N: usize> {
    bytes: [u8; N],
    len: usize,
}

impl<const N: usize> Gathered<N> {
    pub(crate) fn new() -> Self {
        Gathered {
            bytes: [0; N],
            len: 0,
        }
    }

    pub(crate) fn part(&self) -> &[u8] {
        first(&self.bytes, self.len)
    }

    // How much room is left.
    pub(crate) fn room(&self) -> usize {
        N.saturating_sub(self.len)
    }

    pub(crate) fn clear(&mut self) {
        self.len = 0;
    }

    // Text is put behind what is gathered; its place is how long that is then.
    fn text(&mut self) -> Text<'_> {
        let bytes = &mut self.bytes;
        Text {
            out: &mut bytes[..],
            at: self.len,
        }
    }

    // PLACE and TIME.
    pub(crate) fn put_start(&mut self, place: u64, time: u64) {
        let mut text = self.text();
        text.put_number_field(place);
        text.put_number_field(time);
        self.len = text.at;
    }

    // The rest of a skipped record's line.
    pub(crate) fn put_skipped(&mut self, number: u8) {
        let mut text = self.text();
        text.put_field(b"skipped");
        text.put_last_number(u64::from(number));
        self.len = text.at;
    }

    // The rest of a fed record's line: what the call came to, the output lent to it, and the part of the packet that was accepted.
    pub(crate) fn put_fed(&mut self, o: Outcome, lent: &[u8], accepted: &[u8]) {
        let mut text = self.text();
        put_fields(
            &mut text,
            o.event,
            pending(o.listener),
            first(lent, o.written),
            accepted,
            is_kept(lent, o.written),
            o.remarks,
        );
        self.len = text.at;
    }

    // The last line: the number that the walk ended with, and how many records there were, were fed and were skipped.
    pub(crate) fn put_end(&mut self, number: u8, records: u64, fed: u64, skipped: u64) {
        let mut text = self.text();
        text.put_field(b"end");
        text.put_number_field(u64::from(number));
        text.put_number_field(records);
        text.put_number_field(fed);
        text.put_last_number(skipped);
        self.len = text.at;
    }

    // How far the walk is, over what stood there before.
    pub(crate) fn put_progress(&mut self, records: u64, bytes: u64) {
        let mut text = self.text();
        text.put(b"\r");
        text.put_number_field(records);
        text.put(b"records, ");
        text.put_number_field(bytes);
        text.put(b"bytes");
        self.len = text.at;
    }

    pub(crate) fn put_file_header(&mut self) {
        if let Ok(n) = write_file_header(&mut self.bytes) {
            self.len = n;
        }
    }

    fn put_record(&mut self, head: RecordHead, original: u32, packet: &[u8]) {
        let mut made = [0u8; LONGEST_RECORD];
        if let Ok(n) = write_record(&mut made, head.seconds, head.micros, original, packet) {
            let mut text = self.text();
            text.put(first(&made, n));
            self.len = text.at;
        }
    }

    // The packet of a fed record and, where there is an answer, a packet of the same time that takes it to the sender.
    pub(crate) fn put_packets(
        &mut self,
        local: LocalEndpoint,
        head: RecordHead,
        packet: &[u8],
        answer: &[u8],
    ) {
        self.put_record(head, head.original, packet);
        if answer.is_empty() {
            return;
        }
        let sender = block_of(source_part(local.family, packet));
        let mut carrier = [0u8; LENT + 40];
        if let Ok(n) = write_packet(&mut carrier, local.family, local.own, sender, answer) {
            self.put_record(head, (n % 65536) as u32, first(&carrier, n));
        }
    }
}
