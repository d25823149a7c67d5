// Compares what two sites answer: `compare SETUP CAPTURE CAPTURE [ENTRIES]`. Each capture is fed to a listener of its own, which SETUP's start and settings
// make, and the pairs of fed records that are answered differently are listed, at most ENTRIES of them. One capture may be `-`, standard input.
#![tactic(auto)]

mod line;
mod setup;
mod sides;

use comparison::compare::set_up;
use console::arguments::{LONGEST_NAME, argument};
use console::source::{Source, open, try_reading};
use console::streams::{Console, Streams};
use line::print_check;
use protocol::state::Settings;
use setup::{Start, read_setup};
use sides::{Capture, Files, MOST_ENTRIES, compare_captures};
use std::fs::File;
use std::io;
use std::io::Read;
use text::line::MOST_BYTES;
use text::number::read_number;
use text::part::first;
use text::word::is_word;

// As long as an argument can be: leading zeros of ENTRIES are allowed.
const ARGUMENT: usize = 131072;

fn tell_usage(streams: &mut Console) {
    streams.tell(b"usage: compare SETUP CAPTURE CAPTURE [ENTRIES]\n");
}

// What was opened, if it can be read, which a folder cannot: nothing is printed before that is known.
fn readable<S: Read + Drop>(opened: io::Result<S>) -> io::Result<S> {
    let mut source = opened?;
    try_reading(&mut source)?;
    Ok(source)
}

// The same; else that is told.
fn checked<S: Read + Drop>(streams: &mut Console, opened: io::Result<S>, name: &[u8]) -> Option<S> {
    match readable(opened) {
        Ok(source) => Some(source),
        Err(e) => {
            streams.fail(name, e);
            None
        }
    }
}

// Whether a capture is standard input.
fn is_input(name: &[u8]) -> bool {
    is_word(name, b"-")
}

fn open_capture<'a>(
    rt: &HostRuntime,
    streams: &mut Console,
    name: &'a [u8],
) -> Option<Capture<'a>> {
    let source = if is_input(name) {
        Source::Input(rt.stdin())
    } else {
        Source::Opened(checked(streams, open(rt, name), name)?)
    };
    Some(Capture { name, source })
}

// Opens the set-up and the captures; standard input comes first, since a file that is opened takes its descriptor where it is closed.
fn open_files<'a>(
    rt: &HostRuntime,
    streams: &mut Console,
    setup_name: &[u8],
    name1: &'a [u8],
    name2: &'a [u8],
) -> Option<(File, Files<'a>)> {
    if is_input(name1) || is_input(name2) {
        checked(streams, Ok(rt.stdin()), b"-")?;
    }
    let setup = checked(streams, open(rt, setup_name), setup_name)?;
    let files = Files {
        first: open_capture(rt, streams, name1)?,
        second: open_capture(rt, streams, name2)?,
        streams: *streams,
    };
    Some((setup, files))
}

// Makes the two calls and, where none is refused, compares the captures.
fn set_up_and_compare(
    own: &[u8; MOST_BYTES],
    key: &[u8; MOST_BYTES],
    start: Start,
    settings: Settings,
    files: &mut Files,
    entries: u64,
) {
    let own = first(own, start.own);
    let key = first(key, start.key);
    let s = set_up(own, start.port, key, settings);
    if print_check(&mut files.streams, s.check) && s.check.is_ok() {
        compare_captures(s.listener, files, entries);
    }
}

// With all files open, reads the set-up.
fn compare_with(setup: &mut File, setup_name: &[u8], files: &mut Files, entries: u64) {
    let mut own = [0u8; MOST_BYTES];
    let mut key = [0u8; MOST_BYTES];
    if let Some((start, settings)) = read_setup(
        &mut files.streams,
        setup,
        setup_name,
        &mut own,
        &mut key,
    ) {
        set_up_and_compare(&own, &key, start, settings, files, entries);
    }
}

fn run(rt: &HostRuntime, streams: &mut Console, entries: u64) {
    let mut path = [0u8; LONGEST_NAME];
    let mut path1 = [0u8; LONGEST_NAME];
    let mut path2 = [0u8; LONGEST_NAME];
    let n = argument(rt, 1, &mut path).unwrap_or(0);
    let n1 = argument(rt, 2, &mut path1).unwrap_or(0);
    let n2 = argument(rt, 3, &mut path2).unwrap_or(0);
    if is_input(&path1[..n1]) && is_input(&path2[..n2]) {
        streams.tell(b"compare: only one capture can be standard input\n");
        return;
    }
    let opened = open_files(rt, streams, &path[..n], &path1[..n1], &path2[..n2]);
    if let Some((mut setup, mut files)) = opened {
        compare_with(&mut setup, &path[..n], &mut files, entries);
    }
}

// ENTRIES, if it is given.
fn entries_of(rt: &HostRuntime) -> Option<u64> {
    let mut word = [0u8; ARGUMENT];
    match argument(rt, 4, &mut word) {
        None => Some(MOST_ENTRIES),
        Some(n) => read_number(&word[..n], MOST_ENTRIES),
    }
}

fn main(rt: HostRuntime) {
    let mut streams = Streams {
        out: rt.stdout(),
        err: rt.stderr(),
    };
    let mut none = [0u8; 1];
    if argument(&rt, 3, &mut none).is_none() || argument(&rt, 5, &mut none).is_some() {
        return tell_usage(&mut streams);
    }
    match entries_of(&rt) {
        None => tell_usage(&mut streams),
        Some(entries) => run(&rt, &mut streams, entries),
    }
}
