// The walk over a capture of any size, through a window on it. The lines and the packets of a window are gathered, and written before the next read.
use crate::line::{Gathered, LENT, LONGEST_RECORD};
use console::source::Source;
use console::streams::Console;
use listener::outcome::event_number;
use pcap::record::{RecordHead, packet_in};
use pcap::walker::{Taken, Walker, finish, new_walker, take_next};
use pcap::window::refill;
use protocol::state::Listener;
use segment::refusal::Refusal;
use std::fs::File;
use std::io::{Error, IsTerminal, Read, Write};
use text::output::FILL;
use text::part::{first, rest};
use walk::feed::{accepted_in, feed, time_of};

// One read brings so many bytes at most.
const INPUT: usize = 65536;

// A walker keeps less than a record, so the window has room for that and for what a read brings.
const WINDOW: usize = LONGEST_RECORD + INPUT;

// The room for lines and for packets, and how much of it is left free for those of one record.
const ROOM: usize = 65536;

const FREE: usize = 8192;

// How many bytes the progress that is told may be behind.
const BEHIND: u64 = 1048576;

// What could not be opened, read or written, and why.
#[derive(Drop)]
pub(crate) struct Failure<'a> {
    pub(crate) what: &'a [u8],
    pub(crate) error: Error,
}

// The file for the packets.
#[derive(Drop)]
pub(crate) struct Output<'a> {
    pub(crate) name: &'a [u8],
    pub(crate) file: File,
}

impl<'a> Output<'a> {
    fn write(&mut self, packets: &[u8]) -> Result<(), Failure<'a>> {
        let what = self.name;
        self.file
            .write_all(packets)
            .map_err(|error| Failure { what, error })
    }
}

// The window's bytes that are left, from `at` to `end`.
#[derive(Drop)]
struct Window {
    bytes: [u8; WINDOW],
    at: usize,
    end: usize,
}

impl Window {
    fn new() -> Window {
        Window {
            bytes: [0; WINDOW],
            at: 0,
            end: 0,
        }
    }

    fn part(&self) -> &[u8] {
        first(&self.bytes, self.end)
    }

    fn refill(&mut self, read: &[u8]) {
        self.end = refill(&mut self.bytes, self.at, self.end, read);
        self.at = 0;
    }
}

// Why a walk cannot go on in a window.
#[derive(Clone, Copy, Drop)]
enum Stop {
    // what was gathered is to be written first
    Full,
    // more bytes are needed, if there are any
    Needing,
    // the walk is over
    Over(Refusal),
}

// Where the walk stands, how many records were fed and skipped, and what is gathered: lines and, if there is a file for them, packets.
#[derive(Drop)]
struct Walk<'a> {
    listener: Listener,
    walker: Walker,
    fed: u64,
    skipped: u64,
    lines: Gathered<ROOM>,
    packets: Gathered<ROOM>,
    out: Option<Output<'a>>,
}

impl<'a> Walk<'a> {
    // Whether there is room for the lines and the packets of one record more.
    fn has_room(&self) -> bool {
        self.lines.room() >= FREE && self.packets.room() >= FREE
    }

    // Feeds the record at a place, and gathers its line and its packets.
    fn feed_record(&mut self, place: u64, head: RecordHead, packet: &[u8]) {
        let mut lent = [FILL; LENT];
        let local = self.listener.local;
        self.lines
            .put_start(place, time_of(head.seconds, head.micros));
        let fed = feed(
            self.listener,
            place,
            head.seconds,
            head.micros,
            packet,
            &mut lent,
        );
        let outcome = fed.outcome;
        if !fed.is_fed {
            self.skipped = self.skipped.wrapping_add(1);
            self.lines.put_skipped(event_number(outcome.event));
            return;
        }
        self.fed = self.fed.wrapping_add(1);
        self.listener = outcome.listener;
        self.lines
            .put_fed(outcome, &lent, accepted_in(local, packet, outcome.event));
        if self.out.is_some() {
            let answer = first(&lent, outcome.written);
            self.packets.put_packets(local, head, packet, answer);
        }
    }

    // Takes what comes next in the window. (A capture that is longer than can be counted ends as a cut one.)
    fn take_one(&mut self, window: &mut Window) -> Result<(), Stop> {
        if !self.has_room() {
            return Err(Stop::Full);
        }
        let place = self.walker.records;
        let step = take_next(self.walker, window.part(), window.at);
        match step.taken {
            Taken::More => return Err(Stop::Needing),
            Taken::Bad => return Err(Stop::Over(Refusal::BadCapture)),
            Taken::TooLong => return Err(Stop::Over(Refusal::CutRecord)),
            Taken::Opened(_) => {}
            Taken::Record(head) => {
                let packet = packet_in(rest(window.part(), window.at), head.captured);
                self.feed_record(place, head, packet);
            }
        }
        self.walker = step.walker;
        window.at = step.next;
        Ok(())
    }

    // Takes all that the window allows. A proved loop has to end: a window has fewer records than it has bytes.
    fn take_all(&mut self, window: &mut Window) -> Stop {
        for _ in 0..WINDOW {
            if let Err(stop) = self.take_one(window) {
                return stop;
            }
        }
        Stop::Full
    }

    // Writes what was gathered.
    fn write_gathered(&mut self, streams: &mut Console) -> Result<(), Failure<'a>> {
        print(streams, self.lines.part())?;
        self.lines.clear();
        if let Some(out) = &mut self.out {
            out.write(self.packets.part())?;
            self.packets.clear();
        }
        Ok(())
    }

    // Tells how far the walk is.
    fn tell_progress(&self, streams: &mut Console) {
        let mut text = Gathered::<80>::new();
        text.put_progress(self.walker.records, self.walker.bytes);
        streams.tell(text.part());
    }

    // Prints the last line; where progress is told, how far the walk came.
    fn print_end(
        &self,
        streams: &mut Console,
        check: Result<(), Refusal>,
        tells: bool,
    ) -> Result<(), Failure<'a>> {
        let mut text = Gathered::<128>::new();
        let number = check.err().map_or(0, u8::from);
        text.put_end(number, self.walker.records, self.fed, self.skipped);
        if tells {
            self.tell_progress(streams);
            streams.tell(b"\n");
        }
        print(streams, text.part())
    }

    // Takes all of a capture.
    fn go(
        &mut self,
        streams: &mut Console,
        capture: &mut Source,
        name: &'a [u8],
    ) -> Result<(), Failure<'a>> {
        let mut window = Window::new();
        let mut input = [0u8; INPUT];
        let tells = streams.err.is_terminal() && !streams.out.is_terminal();
        let mut told = 0;
        // a proved loop has to end, and the capture need not: no run uses up so many turns
        for _ in 0..u64::MAX {
            let stop = self.take_all(&mut window);
            self.write_gathered(streams)?;
            if tells && self.walker.bytes.wrapping_sub(told) >= BEHIND {
                self.tell_progress(streams);
                told = self.walker.bytes;
            }
            match stop {
                Stop::Full => {}
                Stop::Over(why) => return self.print_end(streams, Err(why), tells),
                Stop::Needing => {
                    let n = capture
                        .read(&mut input)
                        .map_err(|error| Failure { what: name, error })?;
                    if n == 0 {
                        let check = finish(self.walker, window.part(), window.at);
                        return self.print_end(streams, check, tells);
                    }
                    window.refill(first(&input, n));
                }
            }
        }
        Ok(())
    }
}

fn print<'a>(streams: &mut Console, text: &[u8]) -> Result<(), Failure<'a>> {
    streams.write_all(text).map_err(|error| Failure {
        what: b"standard output",
        error,
    })
}

// Walks a capture. Progress is told where a person sees it, and not the lines. What fails is told while the file for the packets is open, since standard
// error may be that file.
pub(crate) fn walk_capture<'a>(
    listener: Listener,
    streams: &mut Console,
    capture: &mut Source,
    name: &'a [u8],
    out: Option<Output<'a>>,
) {
    let mut walk = Walk {
        listener,
        walker: new_walker(),
        fed: 0,
        skipped: 0,
        lines: Gathered::new(),
        packets: Gathered::new(),
        out,
    };
    if walk.out.is_some() {
        walk.packets.put_file_header();
    }
    if let Err(failure) = walk.go(streams, capture, name) {
        streams.fail(failure.what, failure.error);
    }
}
