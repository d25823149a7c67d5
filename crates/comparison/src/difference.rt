// What two sites made of a record: whether it is the same, and where the answers part.
ghost use Rattle.std.specs.Prelude.{◌≡◌, not, nat_eq};
ghost use Rattle.std.specs.List.{zip, position_from};
ghost use Rattle.protocol.specs.Call.{kind_of_event, verdict_of};
ghost use Rattle.comparison.specs.Account.{judged_as};
ghost use Rattle.comparison.specs.Difference.{same_event, parting, difference_of, kind_named, verdict_named};

use listener::outcome::event_number;
use protocol::outcome::Event;

// The first of the pairs of two slices' bytes that differ.
fn first_unlike(a: &[u8], b: &[u8]) -> Option<usize>
    ensures { result ≡ position_from (λ p. not (nat_eq p.0 p.1)) 0 (zip a.now b.now) }
{
    a.iter().zip(b).position(|(x, y)| x != y)
}

// The first place where two slices differ; the length of the shorter where no byte does.
#[tactic(auto, using(crate::proofs::Parting::first_parting))]
pub fn first_difference(a: &[u8], b: &[u8]) -> usize
    ensures { result ≡ parting a.now b.now }
{
    first_unlike(a, b).unwrap_or(a.len().min(b.len()))
}

// The kind of a done segment, in document 01's words.
#[derive(Clone, Copy, Drop, PartialEq)]
enum Kind {
    Opening,
    Reset,
    Completion,
}

// The verdict of a done opening.
#[derive(Clone, Copy, Drop, PartialEq)]
enum Verdict {
    Early,
    Plain,
    Repeat,
}

fn kind_of(e: Event) -> Option<Kind>
    ensures { result ≡ kind_named (kind_of_event e) }
{
    match e {
        Event::FastOpened(_) | Event::Regular | Event::Retransmission => Some(Kind::Opening),
        Event::WasReset => Some(Kind::Reset),
        Event::Completed => Some(Kind::Completion),
        Event::Refused(_) | Event::Done => None,
    }
}

fn verdict_of(e: Event) -> Option<Verdict>
    ensures { result ≡ verdict_named (verdict_of e) }
{
    match e {
        Event::FastOpened(_) => Some(Verdict::Early),
        Event::Regular => Some(Verdict::Plain),
        Event::Retransmission => Some(Verdict::Repeat),
        Event::Completed | Event::WasReset | Event::Refused(_) | Event::Done => None,
    }
}

// Whether two calls returned the same number and, if they are done, are of one kind and verdict.
#[tactic(auto, unfolding(crate::specs::Difference::same_event))]
pub fn same_event(a: Event, b: Event) -> bool
    ensures { result ≡ same_event a b }
{
    event_number(a) == event_number(b) && kind_of(a) == kind_of(b) && verdict_of(a) == verdict_of(b)
}

// What a record came to: the event, the bytes of early data that were accepted, and the segment that was written.
#[derive(Clone, Copy, Drop)]
pub struct Judged<'a> {
    pub event: Event,
    pub part: &'a [u8],
    pub output: &'a [u8],
}

// How two sites differ on a record: the first place where the answers differ, the length of the shorter where no byte does.
#[tactic(auto, using(crate::proofs::Parting::equal_bytes), unfolding(crate::specs::Difference::difference_of, crate::specs::Difference::same))]
pub fn compare_answers(a: Judged, b: Judged) -> Option<u64>
    ensures { result ≡ difference_of (judged_as a.entry.event a.entry.part.now a.entry.output.now) (judged_as b.entry.event b.entry.part.now b.entry.output.now) }
{
    if same_event(a.event, b.event) && a.part == b.part && a.output == b.output {
        return None;
    }
    Some(first_difference(a.output, b.output) as u64)
}
