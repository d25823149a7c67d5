// The walk over two captures of any size in lockstep, through a window on each. What was listed is written before the next read.
use crate::line::{LONGEST_ENTRY, print_entries, print_finding};
use comparison::compare::finding_of;
use comparison::lockstep::{Advance, Comparison, Turn, new_comparison, take_turn};
use comparison::site::Window;
use console::source::Source;
use console::streams::Console;
use pcap::record::{MOST_CAPTURED, RECORD_HEADER};
use pcap::window::refill;
use protocol::state::Listener;
use std::io::Read;
use text::part::first;

// The most entries that are listed.
pub(crate) const MOST_ENTRIES: u64 = 4096;

// An entry is two numbers.
const LIST: usize = 2 * MOST_ENTRIES as usize;

// Room for the lines of all entries.
const LINES: usize = LONGEST_ENTRY * MOST_ENTRIES as usize;

// One read brings so many bytes at most.
const INPUT: usize = 65536;

// A walker keeps less than a record, so a window has room for that and for what a read brings.
const WINDOW: usize = RECORD_HEADER + MOST_CAPTURED + INPUT;

// A capture, under the name that it was given by.
#[derive(Drop)]
pub(crate) struct Capture<'a> {
    pub(crate) name: &'a [u8],
    pub(crate) source: Source,
}

// The captures, and the standard streams.
#[derive(Drop)]
pub(crate) struct Files<'a> {
    pub(crate) first: Capture<'a>,
    pub(crate) second: Capture<'a>,
    pub(crate) streams: Console,
}

// The window on a capture: the bytes that are left are those from `at` to `end`; whether no byte is to come behind them.
#[derive(Drop)]
struct Side {
    window: [u8; WINDOW],
    at: usize,
    end: usize,
    last: bool,
}

impl Side {
    fn new() -> Side {
        Side {
            window: [0u8; WINDOW],
            at: 0,
            end: 0,
            last: false,
        }
    }

    fn lent(&self) -> Window<'_> {
        Window {
            bytes: first(&self.window, self.end),
            at: self.at,
            last: self.last,
        }
    }

    // Reads on; where nothing comes, that was all. Where that cannot be done, says so, and answers false.
    fn read_on(
        &mut self,
        capture: &mut Capture,
        streams: &mut Console,
        input: &mut [u8; INPUT],
    ) -> bool {
        match capture.source.read(input) {
            Ok(0) => self.last = true,
            Ok(n) => {
                self.end = refill(&mut self.window, self.at, self.end, first(input, n));
                self.at = 0;
            }
            Err(e) => {
                streams.fail(capture.name, e);
                return false;
            }
        }
        true
    }
}

// Makes all turns that the windows allow. A proved loop has to end: a turn takes some bytes of a window.
fn take_turns(c: Comparison, first: Window, second: Window, list: &mut [u64]) -> Advance {
    let mut a = Advance {
        comparison: c,
        turn: Turn::Went,
        at1: first.at,
        at2: second.at,
    };
    for _ in 0..2 * WINDOW {
        if !matches!(a.turn, Turn::Went) {
            break;
        }
        let one = Window { at: a.at1, ..first };
        let two = Window {
            at: a.at2,
            ..second
        };
        a = take_turn(a.comparison, one, two, list);
    }
    a
}

// Walks both captures: after the turns that the windows allow, writes what they listed, and does what the last one asks for, which is to read on, or to write
// the last lines. A proved loop has to end, and a capture need not: the rounds are counted up to a number that no run comes to.
fn walk_captures(l: Listener, files: &mut Files, list: &mut [u64]) {
    let mut one = Side::new();
    let mut two = Side::new();
    let mut input = [0u8; INPUT];
    let mut lines = [0u8; LINES];
    let mut c = new_comparison(l);
    for _ in 0..u64::MAX {
        let written = c.tally.listed;
        let a = take_turns(c, one.lent(), two.lent(), list);
        c = a.comparison;
        one.at = a.at1;
        two.at = a.at2;
        if !print_entries(
            &mut files.streams,
            &mut lines,
            list,
            written,
            c.tally.listed,
        ) {
            return;
        }
        let goes_on = match a.turn {
            Turn::Went => true,
            Turn::NeedsFirst => one.read_on(&mut files.first, &mut files.streams, &mut input),
            Turn::NeedsSecond => two.read_on(&mut files.second, &mut files.streams, &mut input),
            Turn::Over(ends) => {
                print_finding(&mut files.streams, finding_of(c, ends));
                false
            }
        };
        if !goes_on {
            return;
        }
    }
}

// Compares two captures, and prints what was found.
pub(crate) fn compare_captures(l: Listener, files: &mut Files, entries: u64) {
    let mut list = [0u64; LIST];
    let n = 2 * entries.min(MOST_ENTRIES) as usize;
    walk_captures(l, files, &mut list[..n]);
}
