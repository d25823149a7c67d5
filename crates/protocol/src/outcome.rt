// The outcome of a call.
use crate::state::Listener;
use segment::options::Remarks;
use segment::refusal::Refusal;

// What happened. Of an opening it is the verdict: `FastOpened` is document 01's early, with its accepted count, `Regular` its plain and
// `Retransmission` its repeat. `Completed` and `WasReset` are a completion and a reset; `Done` is any other call that is done.
#[derive(Clone, Copy, Drop)]
pub enum Event {
    Refused(Refusal),
    FastOpened(u32),
    Regular,
    Retransmission,
    Completed,
    WasReset,
    Done,
}

// A call's result: the listener next, what happened, how many bytes were written to the output, and what was remarked on an opening's options.
#[derive(Clone, Copy, Drop)]
pub struct Outcome {
    pub listener: Listener,
    pub event: Event,
    pub written: usize,
    pub remarks: Remarks,
}

// A start's result. Where it was refused, every call on the listener is.
#[derive(Clone, Copy, Drop)]
pub struct Started {
    pub listener: Listener,
    pub check: Result<(), Refusal>,
}
