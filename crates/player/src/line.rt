// The line of a call's outcome.
ghost use Rattle.std.specs.Prelude.{◌≡◌, ◌++◌};
ghost use Rattle.protocol.specs.Call.{kind_of_event, verdict_of};
ghost use Rattle.text.specs.Put.{put_after, field};
ghost use Rattle.player.specs.Line.{kind_word, verdict_word, event_fields, line_of, outcome_line, event_of};

use listener::calls::pending;
use listener::outcome::{accepted_count, event_number};
use protocol::outcome::{Event, Outcome};
use segment::options::Remarks;
use segment::refusal::Refusal;
use text::output::is_kept;
use text::part::first;
use text::put::Text;

// Puts the line of what a call came to: `lent` is the output that was lent to it.
#[tactic(auto, unfolding(crate::specs::Line::outcome_line))]
pub(crate) fn put_outcome(text: &mut Text<'_>, o: Outcome, lent: &[u8], part: &[u8])
    ensures { text.new ≡ put_after (outcome_line o lent.now part.now) text.old }
{
    let l = o.listener;
    let event = o.event;
    let remarks = o.remarks;
    let written = o.written;
    let kept = is_kept(lent, written);
    put_fields(
        text,
        event,
        pending(l),
        first(lent, written),
        part,
        kept,
        remarks,
    );
}

// Puts the line of an event: how many are pending, what was written, the accepted part, whether the lent bytes past the written ones are as they were, and what
// was remarked.
#[tactic(auto, using(text::proofs::Puts::puts, crate::proofs::Lines::line_joined))]
pub fn put_fields(
    text: &mut Text<'_>,
    event: Event,
    pending: u32,
    written: &[u8],
    part: &[u8],
    kept: bool,
    remarks: Remarks,
)
    ensures { text.new ≡ put_after (line_of event pending written.now part.now kept remarks) text.old }
{
    put_event(text, event);
    text.put_number_field(written.len() as u64);
    text.put_number_field(pending as u64);
    text.put_bytes_field(written);
    text.put_bytes_field(part);
    text.put_end(
        kept,
        remarks.skipped as u64,
        remarks.used as u64,
        remarks.broken as u64,
    );
}

// Puts what an event is: its number, its kind and verdict, and how many bytes it accepts.
#[tactic(auto, using(text::proofs::Puts::puts, std::proofs::Common::append_assoc), unfolding(crate::specs::Line::event_fields))]
fn put_event(text: &mut Text<'_>, event: Event)
    ensures { text.new ≡ put_after (event_fields event) text.old }
{
    text.put_number_field(event_number(event) as u64);
    put_kind_and_verdict(text, event);
    text.put_number_field(accepted_count(event) as u64);
}

fn put_kind_and_verdict(text: &mut Text<'_>, event: Event)
    ensures { text.new ≡ put_after (field (kind_word (kind_of_event event)) ++ field (verdict_word (verdict_of event))) text.old }
{
    match event {
        Event::Refused(_) => text.put_field(b"- -"),
        Event::FastOpened(_) => text.put_field(b"opening early"),
        Event::Regular => text.put_field(b"opening plain"),
        Event::Retransmission => text.put_field(b"opening repeat"),
        Event::Completed => text.put_field(b"completion -"),
        Event::WasReset => text.put_field(b"reset -"),
        Event::Done => text.put_field(b"- -"),
    }
}

// A start prints like any other call that is no segment.
pub(crate) fn event_of(check: Result<(), Refusal>) -> Event
    ensures { result ≡ event_of check }
{
    match check {
        Ok(()) => Event::Done,
        Err(why) => Event::Refused(why),
    }
}
