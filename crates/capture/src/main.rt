// Feeds a capture to a listener and prints a line for each record: `capture SETUP CAPTURE [OUT]`. SETUP has lines for `replay`, which are played first;
// CAPTURE is a capture of raw IP packets, or `-` for standard input; OUT gets the packets that were fed and the answers to them.
#![tactic(auto)]

mod line;
mod setup;
mod window;

use console::arguments::{LONGEST_NAME, argument};
use console::source::{Source, create, open, try_reading};
use console::streams::{Console, Streams};
use std::fs::File;
use std::io;
use text::word::is_word;
use window::{Failure, Output, walk_capture};

// The arguments.
#[derive(Clone, Copy, Drop)]
struct Names<'a> {
    setup: &'a [u8],
    capture: &'a [u8],
    out: Option<&'a [u8]>,
}

// Opens a file, if it can be read: nothing is printed before that is known.
fn open_readable(rt: &HostRuntime, name: &[u8]) -> io::Result<File> {
    let mut file = open(rt, name)?;
    try_reading(&mut file)?;
    Ok(file)
}

// The capture; `-` is standard input.
fn open_capture(rt: &HostRuntime, name: &[u8]) -> io::Result<Source> {
    if is_word(name, b"-") {
        let mut input = rt.stdin();
        try_reading(&mut input)?;
        return Ok(Source::Input(input));
    }
    Ok(Source::Opened(open_readable(rt, name)?))
}

// What may not be the file for the packets: opening it would empty it.
fn used_as(name: &[u8], names: &Names<'_>) -> Option<&'static [u8]> {
    if is_word(name, names.capture) {
        return Some(b": is the capture itself\n");
    }
    if is_word(name, names.setup) {
        return Some(b": is the set-up itself\n");
    }
    None
}

fn run<'a>(rt: &HostRuntime, streams: &mut Console, names: Names<'a>) -> Result<(), Failure<'a>> {
    let setup_failed = |error| Failure {
        what: names.setup,
        error,
    };
    let mut setup = open_readable(rt, names.setup).map_err(setup_failed)?;
    let mut capture = open_capture(rt, names.capture).map_err(|error| Failure {
        what: names.capture,
        error,
    })?;
    let out = match names.out {
        None => None,
        Some(name) => {
            if let Some(what) = used_as(name, &names) {
                streams.tell(name);
                streams.tell(what);
                return Ok(());
            }
            let file = create(rt, name).map_err(|error| Failure { what: name, error })?;
            Some(Output { name, file })
        }
    };
    let listener = setup::play_setup(streams, &mut setup);
    walk_capture(listener, streams, &mut capture, names.capture, out);
    Ok(())
}

// The name in an argument, if there is one.
fn name_at<'a>(
    rt: &HostRuntime,
    place: usize,
    buffer: &'a mut [u8; LONGEST_NAME],
) -> Option<&'a [u8]> {
    let n = argument(rt, place, buffer)?;
    Some(&buffer[..n])
}

fn main(rt: HostRuntime) {
    let mut streams = Streams {
        out: rt.stdout(),
        err: rt.stderr(),
    };
    let mut setup = [0u8; LONGEST_NAME];
    let mut capture = [0u8; LONGEST_NAME];
    let mut out = [0u8; LONGEST_NAME];
    let (Some(setup), Some(capture), None) = (
        name_at(&rt, 1, &mut setup),
        name_at(&rt, 2, &mut capture),
        argument(&rt, 4, &mut out),
    ) else {
        streams.tell(b"usage: capture SETUP CAPTURE [OUT]\n");
        return;
    };
    let names = Names {
        setup,
        capture,
        out: name_at(&rt, 3, &mut out),
    };
    if let Err(failure) = run(&rt, &mut streams, names) {
        streams.fail(failure.what, failure.error);
    }
}
