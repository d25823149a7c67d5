// The set-up: one `start` line and then one `settings` line at time 0, beside comments and empty lines. Both captures are judged by it.
use crate::line::{tell_line, tell_of};
use console::streams::Console;
use player::read::{Order, read_line};
use protocol::state::Settings;
use std::io::Read;
use text::line::{LONGEST, MOST_BYTES, is_silent};
use text::part::first;
use text::put::Text;
use text::reader::{INPUT, new_reader, read_if_used_up, take_next};

// The start's address and key are given by their lengths: their bytes are at the start of two buffers.
#[derive(Clone, Copy, Drop)]
pub(crate) struct Start {
    pub(crate) own: usize,
    pub(crate) port: u16,
    pub(crate) key: usize,
}

// Why a line cannot be used; the last two are settings at another time than 0, and a line behind the settings.
#[derive(Clone, Copy, Drop)]
enum Fault {
    TooLong,
    BadLine,
    NoStart,
    NoSettings,
    Later,
    OneMore,
}

// What was read so far.
#[derive(Clone, Copy, Drop)]
enum Stage {
    Begun,
    Started(Start),
    Whole(Start, Settings),
}

// The start's bytes are kept: the next line's are read to buffers of their own.
#[tactic(auto, using(text::proofs::Puts::same_reference))]
fn start_in(
    line: &[u8],
    own: &mut [u8; MOST_BYTES],
    key: &mut [u8; MOST_BYTES],
) -> Result<Stage, Fault> {
    let read = read_line(line);
    match read.order.ok_or(Fault::BadLine)? {
        Order::Start {
            own: own_len,
            port,
            key: key_len,
        } => {
            Text { out: own, at: 0 }.put(first(&read.a, own_len));
            Text { out: key, at: 0 }.put(first(&read.b, key_len));
            Ok(Stage::Started(Start {
                own: own_len,
                port,
                key: key_len,
            }))
        }
        _ => Err(Fault::NoStart),
    }
}

fn settings_in(start: Start, line: &[u8]) -> Result<Stage, Fault> {
    match read_line(line).order.ok_or(Fault::BadLine)? {
        Order::Settings { time: 0, settings } => Ok(Stage::Whole(start, settings)),
        Order::Settings { .. } => Err(Fault::Later),
        _ => Err(Fault::NoSettings),
    }
}

// What a whole line of `len` bytes adds; of a longer one than is read, `line` is the start.
fn stage_after(
    stage: Stage,
    line: &[u8],
    len: usize,
    own: &mut [u8; MOST_BYTES],
    key: &mut [u8; MOST_BYTES],
) -> Result<Stage, Fault> {
    if is_silent(line) {
        return Ok(stage);
    }
    if len > LONGEST {
        return Err(Fault::TooLong);
    }
    match stage {
        Stage::Begun => start_in(line, own, key),
        Stage::Started(start) => settings_in(start, line),
        Stage::Whole(_, _) => Err(Fault::OneMore),
    }
}

fn words_of(fault: Fault) -> &'static [u8] {
    match fault {
        Fault::TooLong => b" (longer than 8,192 bytes)\n",
        Fault::BadLine => b" (bad line)\n",
        Fault::NoStart => b" (not a start line)\n",
        Fault::NoSettings => b" (not a settings line)\n",
        Fault::Later => b" (not at time 0)\n",
        Fault::OneMore => b" (one line too many)\n",
    }
}

// What the file came to; one that ended early is told.
fn setup_of(streams: &mut Console, stage: Stage, name: &[u8]) -> Option<(Start, Settings)> {
    match stage {
        Stage::Begun => {
            tell_of(streams, name, b": no start line\n");
            None
        }
        Stage::Started(_) => {
            tell_of(streams, name, b": no settings line\n");
            None
        }
        Stage::Whole(start, settings) => Some((start, settings)),
    }
}

// Reads all of it, up to a line that cannot be used; that is told.
pub(crate) fn read_setup<R: Read>(
    streams: &mut Console,
    source: &mut R,
    name: &[u8],
    own: &mut [u8; MOST_BYTES],
    key: &mut [u8; MOST_BYTES],
) -> Option<(Start, Settings)> {
    let mut input = [0u8; INPUT];
    let mut line = [0u8; LONGEST];
    let mut reader = new_reader();
    let mut stage = Stage::Begun;
    let mut lines: u64 = 0;
    while reader.left > 0 {
        let n = read_if_used_up(source, reader, &mut input);
        reader = take_next(reader, n, &input, &mut line);
        if reader.complete {
            lines = lines.wrapping_add(1);
            let whole = first(&line, reader.len);
            match stage_after(stage, whole, reader.len, own, key) {
                Ok(next) => stage = next,
                Err(fault) => {
                    tell_line(streams, name, lines, whole, words_of(fault));
                    return None;
                }
            }
        }
    }
    setup_of(streams, stage, name)
}
