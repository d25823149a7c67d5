// Repeats one piece of work on built-in data and prints a digest of its results, so that a run can be timed and its results compared:
// `timing WORK COUNT LIVE PAYLOAD`, with LIVE the connections that the listener has already and PAYLOAD the length of the data.
#![tactic(auto)]

mod calls;
mod data;
mod pieces;
mod records;

use calls::Task;
use console::arguments::argument;
use console::streams::{Console, Streams};
use text::number::read_number;

fn print_usage(streams: &mut Console) {
    streams.offer(
        b"usage: timing block|expand|checksum|options|early|turned|shared|request|repeat|completion|refusal|full|unknown|walk COUNT LIVE PAYLOAD\n",
    );
}

// The digest of the work that a word names, if it names one.
fn digest_of(work: &[u8], task: &Task) -> Option<u64> {
    let digest = match work {
        b"block" => pieces::block(task.count),
        b"expand" => pieces::expand(task.count),
        b"checksum" => pieces::checksum(task.count, task.payload),
        b"options" => pieces::options(task.count),
        b"early" => task.early(),
        b"turned" => task.turned(),
        b"shared" => task.shared(),
        b"request" => task.request(),
        b"repeat" => task.repeat(),
        b"completion" => task.completion(),
        b"refusal" => task.refusal(),
        b"full" => task.full(),
        b"unknown" => task.unknown(),
        b"walk" => records::walk(task.count).ok()?,
        _ => return None,
    };
    Some(digest)
}

// The number in an argument.
fn number_asked(rt: &HostRuntime, place: usize, most: u64) -> Option<u64> {
    let mut word = [0u8; 32];
    let n = argument(rt, place, &mut word).unwrap_or(0);
    read_number(&word[..n], most)
}

// The longest data that a work takes: a listener's segment has at most 1,460 bytes of it, a checksum at most a whole segment.
fn longest(work: &[u8]) -> u64 {
    match work {
        b"checksum" => 1520,
        _ => 1460,
    }
}

// What the arguments after the work ask for, if they are numbers in their ranges.
fn task_asked(rt: &HostRuntime, work: &[u8]) -> Option<Task> {
    let count = number_asked(rt, 2, u64::MAX)?;
    let live = number_asked(rt, 3, 64)?;
    let payload = number_asked(rt, 4, longest(work))?;
    Some(Task {
        peer: data::peer(live),
        count,
        live,
        payload: payload as usize,
    })
}

fn main(rt: HostRuntime) {
    let mut streams = Streams {
        out: rt.stdout(),
        err: rt.stderr(),
    };
    let mut none = [0u8; 1];
    if argument(&rt, 4, &mut none).is_none() || argument(&rt, 5, &mut none).is_some() {
        return print_usage(&mut streams);
    }
    let mut word = [0u8; 16];
    let n = argument(&rt, 1, &mut word).unwrap_or(0);
    let work = &word[..n];
    match task_asked(&rt, work).and_then(|task| digest_of(work, &task)) {
        Some(digest) => {
            streams.offer_line(digest);
        }
        None => print_usage(&mut streams),
    }
}
