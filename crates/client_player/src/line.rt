// The line of a call's outcome.
ghost use Rattle.std.specs.Prelude.{◌≡◌};
ghost use Rattle.text.specs.Put.{put_after};
ghost use Rattle.client_player.specs.Line.{line_of, outcome_line, event_of};

use client::outcome::{Event, Outcome, event_count, event_number};
use segment::options::Remarks;
use segment::refusal::Refusal;
use text::output::is_kept;
use text::part::first;
use text::put::Text;

// Puts the line of what a call came to: `lent` is the output that was lent to it.
#[tactic(auto, unfolding(crate::specs::Line::outcome_line))]
pub(crate) fn put_outcome(text: &mut Text<'_>, o: Outcome, lent: &[u8])
    ensures { text.new ≡ put_after (outcome_line o lent.now) text.old }
{
    let event = o.event;
    let remarks = o.remarks;
    let written = o.written;
    let kept = is_kept(lent, written);
    put_fields(text, event, first(lent, written), kept, remarks);
}

// Puts the fields of an outcome.
#[tactic(auto, using(text::proofs::Puts::puts), unfolding(crate::specs::Line::line_of, text::specs::Put::fields))]
fn put_fields(text: &mut Text<'_>, event: Event, written: &[u8], kept: bool, remarks: Remarks)
    ensures { text.new ≡ put_after (line_of event written.now kept remarks) text.old }
{
    text.put_number_field(event_number(event) as u64);
    text.put_number_field(event_count(event) as u64);
    text.put_number_field(written.len() as u64);
    text.put_bytes_field(written);
    text.put_end(
        kept,
        remarks.skipped as u64,
        remarks.used as u64,
        remarks.broken as u64,
    );
}

// A start prints like a report.
pub(crate) fn event_of(check: Result<(), Refusal>) -> Event
    ensures { result ≡ event_of check }
{
    match check {
        Ok(()) => Event::Reported,
        Err(why) => Event::Refused(why),
    }
}
