// A capture read in pieces, of any size. The caller has a window on it: the bytes that the last step left, and behind them the next piece. A step takes
// the file header or one record at a place of the window, or asks for more; what is left then is less than a record. Bytes and records are counted in 64 bits.
ghost use Rattle.std.specs.Prelude.{◌≡◌, ◌+◌, drop};
ghost use Rattle.pcap.specs.Walker.{fresh, has_room, header_taken, record_taken, step_by, step_of, finish_of};

use crate::file::{ByteOrder, FILE_HEADER, read_file_header};
use crate::record::{RECORD_HEADER, RecordHead, check_of, next_record, rest_from};
use segment::refusal::Refusal;

// How far the walk is: the byte order, once the file header was taken; how many bytes it has taken, and how many records, which is the place of the next one.
#[derive(Clone, Copy, Drop)]
pub struct Walker {
    pub order: Option<ByteOrder>,
    pub bytes: u64,
    pub records: u64,
}

// What a step comes to: the file header was taken, or a record; more bytes are needed, if any are to come; the walk is over with number 15; or the
// capture is longer than can be counted, for which there is no number.
#[derive(Clone, Copy, Drop)]
pub enum Taken {
    Opened(ByteOrder),
    Record(RecordHead),
    More,
    Bad,
    TooLong,
}

// What a step came to, the walker next, and the place in the window where it goes on.
#[derive(Clone, Copy, Drop)]
pub struct Step {
    pub taken: Taken,
    pub walker: Walker,
    pub next: usize,
}

pub fn new_walker() -> Walker
    ensures { result ≡ fresh }
{
    Walker {
        order: None,
        bytes: 0,
        records: 0,
    }
}

// Whether so many bytes more, and a record more, can be counted.
#[tactic(auto, unfolding(crate::specs::Walker::has_room))]
fn has_room(w: Walker, size: usize) -> bool
    ensures { result ≡ has_room w size }
{
    w.records < u64::MAX && size as u64 <= u64::MAX - w.bytes
}

// A step that takes nothing.
fn stand(w: Walker, taken: Taken, at: usize) -> Step
    ensures { result ≡ record { taken = taken; walker = w; next = at } }
{
    Step {
        taken,
        walker: w,
        next: at,
    }
}

#[tactic(auto, using(crate::proofs::Steps::room), unfolding(crate::specs::Walker::header_taken))]
fn take_header(w: Walker, window: &[u8], at: usize) -> Step
    ensures { result ≡ step_by w (header_taken w (drop at window.now)) at }
{
    let rest = rest_from(window, at);
    if rest.len() < FILE_HEADER {
        return stand(w, Taken::More, at);
    }
    let Some(order) = read_file_header(rest) else {
        return stand(w, Taken::Bad, at);
    };
    if !has_room(w, FILE_HEADER) {
        return stand(w, Taken::TooLong, at);
    }
    Step {
        taken: Taken::Opened(order),
        walker: Walker {
            order: Some(order),
            bytes: w.bytes + FILE_HEADER as u64,
            ..w
        },
        next: at + FILE_HEADER,
    }
}

#[tactic(auto, using(crate::proofs::Steps::room, crate::proofs::Next::whole), unfolding(crate::specs::Walker::record_taken))]
fn take_record(w: Walker, order: ByteOrder, window: &[u8], at: usize) -> Step
    ensures { result ≡ step_by w (record_taken w order (drop at window.now)) at }
{
    match next_record(order, rest_from(window, at)) {
        Ok(None) | Err(Refusal::CutRecord) => stand(w, Taken::More, at),
        Err(_) => stand(w, Taken::Bad, at),
        Ok(Some(head)) => {
            let size = RECORD_HEADER + head.captured as usize;
            if !has_room(w, size) {
                return stand(w, Taken::TooLong, at);
            }
            Step {
                taken: Taken::Record(head),
                walker: Walker {
                    bytes: w.bytes + size as u64,
                    records: w.records + 1,
                    ..w
                },
                next: at + size,
            }
        }
    }
}

// Takes what stands at a place of the window.
#[tactic(auto, unfolding(crate::specs::Walker::step_of))]
pub fn take_next(w: Walker, window: &[u8], at: usize) -> Step
    ensures { result ≡ step_of w window.now at }
{
    match w.order {
        None => take_header(w, window, at),
        Some(order) => take_record(w, order, window, at),
    }
}

// The number that a walk ends with, where no byte is to come behind the window.
#[tactic(auto, unfolding(crate::specs::Walker::finish_of))]
pub fn finish(w: Walker, window: &[u8], at: usize) -> Result<(), Refusal>
    ensures { result ≡ finish_of w (drop at window.now) }
{
    let rest = rest_from(window, at);
    match w.order {
        None => read_file_header(rest)
            .map(|_| ())
            .ok_or(Refusal::BadCapture),
        Some(order) => check_of(next_record(order, rest)),
    }
}
