// An outcome, an event in document 01's numbers, and the accepted part of a segment.
ghost use Rattle.std.specs.Prelude.{◌≡◌};
ghost use Rattle.protocol.specs.Call.{number_of_event, accepted_of, accepted_part};
ghost use Rattle.protocol.specs.Step.{outcome};

use protocol::outcome::{Event, Outcome};
use protocol::state::Listener;
use segment::header::payload;
use segment::options::Remarks;

// What a call comes to. Every outcome is made here.
pub fn new_outcome(listener: Listener, event: Event, written: usize, remarks: Remarks) -> Outcome
    ensures { result ≡ outcome listener event written remarks }
{
    Outcome {
        listener,
        event,
        written,
        remarks,
    }
}

// The number that a call returns: 0 where the call was done.
pub fn event_number(e: Event) -> u8
    ensures { result ≡ number_of_event e }
{
    match e {
        Event::Refused(why) => u8::from(why),
        _ => 0,
    }
}

// How many bytes of a segment's payload were accepted.
pub fn accepted_count(e: Event) -> u32
    ensures { result ≡ accepted_of e }
{
    match e {
        Event::FastOpened(n) => n,
        _ => 0,
    }
}

// The bytes of a segment that were accepted, as a part of it; empty where the segment is malformed or has fewer.
pub fn accepted_part(seg: &[u8], e: Event) -> &[u8]
    ensures { result.now ≡ accepted_part seg.now e }
{
    let n = accepted_count(e) as usize;
    let data = payload(seg);
    if data.len() < n {
        return &data[..0];
    }
    &data[..n]
}
