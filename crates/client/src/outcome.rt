// What a call is given and what it comes to.
ghost use Rattle.std.specs.Prelude.{◌≡◌};
ghost use Rattle.client.specs.Call.{number_of_event, count_of};
ghost use Rattle.client.specs.Step.{outcome};

use crate::state::Memory;
use segment::options::Remarks;
use segment::refusal::Refusal;

// An opening to be made, RFC 9293's active OPEN: own port, the server's port, our initial number, and own MSS.
#[derive(Clone, Copy, Drop)]
pub struct ActiveOpen {
    pub source: u16,
    pub dest: u16,
    pub iss: u32,
    pub mss: u32,
}

// Document 01's attempt, the opening that a segment answers: own port, the server's port, our initial number, and how many bytes of data were sent with it.
#[derive(Clone, Copy, Drop)]
pub struct Attempt {
    pub source: u16,
    pub dest: u16,
    pub iss: u32,
    pub sent: u32,
}

// What happened: an opening was written with so many bytes of data; an answer acknowledges so many of them; a failure was reported.
#[derive(Clone, Copy, Drop)]
pub enum Event {
    Refused(Refusal),
    Opened(u32),
    Answered(u32),
    Reported,
}

// A call's result: the memory next, what happened, how many bytes were written to the output, and what was remarked on an answer's options.
#[derive(Clone, Copy, Drop)]
pub struct Outcome {
    pub memory: Memory,
    pub event: Event,
    pub written: usize,
    pub remarks: Remarks,
}

// A start's result. Where it was refused, every call on the memory is.
#[derive(Clone, Copy, Drop)]
pub struct Started {
    pub memory: Memory,
    pub check: Result<(), Refusal>,
}

// What a call comes to. Every outcome is made here.
pub fn new_outcome(memory: Memory, event: Event, written: usize, remarks: Remarks) -> Outcome
    ensures { result ≡ outcome memory event written remarks }
{
    Outcome {
        memory,
        event,
        written,
        remarks,
    }
}

// The number that a call returns: 0 where the call was done.
pub fn event_number(e: Event) -> u8
    ensures { result ≡ number_of_event e }
{
    match e {
        Event::Refused(why) => u8::from(why),
        Event::Opened(_) | Event::Answered(_) | Event::Reported => 0,
    }
}

// How many bytes of data were sent, or acknowledged.
pub fn event_count(e: Event) -> u32
    ensures { result ≡ count_of e }
{
    match e {
        Event::Opened(n) | Event::Answered(n) => n,
        Event::Refused(_) | Event::Reported => 0,
    }
}
