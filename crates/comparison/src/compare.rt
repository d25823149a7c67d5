// Two whole captures compared, after one start and one settings call for both sites.
ghost use Rattle.std.specs.Prelude.{◌≡◌, length};
ghost use Rattle.comparison.specs.Account.{account_of};
ghost use Rattle.comparison.specs.Compared.{finding_of, listed_in, event_check, ready_by, set_up, compared_of, room_of};
ghost use Rattle.comparison.specs.ToCome.{ended_by};
ghost use Rattle.comparison.specs.Windows.{begun, is_going, no_ends, ends_by};

use crate::lockstep::{Advance, Comparison, Ends, Turn, new_comparison, take_turn};
use crate::site::Window;
use listener::calls::{never_started, set_settings, start};
use protocol::outcome::{Event, Started};
use protocol::state::{Listener, Settings};
use segment::refusal::Refusal;

// How many records of a capture were fed, and how it ended.
#[derive(Clone, Copy, Drop)]
pub struct Summary {
    pub fed: u64,
    pub end: Result<(), Refusal>,
}

// How many differences are listed, how many more there are, and what each capture came to.
#[derive(Clone, Copy, Drop)]
pub struct Finding {
    pub listed: usize,
    pub remaining: u64,
    pub first: Summary,
    pub second: Summary,
}

fn event_check(e: Event) -> Result<(), Refusal>
    ensures { result ≡ event_check e }
{
    if let Event::Refused(why) = e {
        return Err(why);
    }
    Ok(())
}

// Where either call is refused, every call on the listener is.
fn ready(l: Listener, check: Result<(), Refusal>) -> Started
    ensures { result ≡ ready_by l check }
{
    let listener = if check.is_ok() { l } else { never_started() };
    Started { listener, check }
}

// A start and a settings call at time 0; the first refusal is the answer.
#[tactic(auto, unfolding(crate::specs::Compared::set_up, protocol::specs::Step::start_of))]
pub fn set_up(own: &[u8], port: u16, key: &[u8], g: Settings) -> Started
    ensures { result ≡ set_up own.now port key.now g }
{
    let started = start(own, port, key);
    if started.check.is_err() {
        return started;
    }
    let o = set_settings(started.listener, 0, g);
    ready(o.listener, event_check(o.event))
}

// Before the first turn, at the start of both captures.
fn begin(l: Listener) -> Advance
    ensures { result ≡ begun l }
{
    Advance {
        comparison: new_comparison(l),
        turn: Turn::Went,
        at1: 0,
        at2: 0,
    }
}

fn is_going(a: Advance) -> bool
    ensures { result ≡ is_going a.turn }
{
    matches!(a.turn, Turn::Went)
}

fn ends_of(turn: Turn) -> Ends
    ensures { result ≡ ends_by turn }
{
    match turn {
        Turn::Over(ends) => ends,
        _ => Ends {
            first: Ok(()),
            second: Ok(()),
        },
    }
}

// What a comparison came to that is over, with these ends.
pub fn finding_of(c: Comparison, ends: Ends) -> Finding
    ensures { result ≡ ended_by c ends }
{
    Finding {
        listed: c.tally.listed,
        remaining: c.tally.remaining,
        first: Summary {
            fed: c.first.fed,
            end: ends.first,
        },
        second: Summary {
            fed: c.second.fed,
            end: ends.second,
        },
    }
}

// Compares two whole captures, each by its own copy of a listener.
pub(crate) fn compare_captures(
    l: Listener,
    first: &[u8],
    second: &[u8],
    list: &mut [u64],
) -> Finding
    ensures value { result ≡ finding_of (account_of l first.now) (account_of l second.now) (length list.old) }
    ensures list_after { list.new ≡ listed_in (account_of l first.now) (account_of l second.now) list.old }
{
    let mut a = begin(l);
    while is_going(a) {
        let one = Window {
            bytes: first,
            at: a.at1,
            last: true,
        };
        let two = Window {
            bytes: second,
            at: a.at2,
            last: true,
        };
        a = take_turn(a.comparison, one, two, list);
    }
    finding_of(a.comparison, ends_of(a.turn))
}

// Compares two whole captures after a start and a settings call.
#[tactic(auto, unfolding(crate::specs::Compared::compared_of, crate::specs::Compared::room_of))]
pub fn compare(
    own: &[u8],
    port: u16,
    key: &[u8],
    g: Settings,
    first: &[u8],
    second: &[u8],
    list: &mut [u64],
) -> Result<Finding, Refusal>
    ensures value { result ≡ compared_of (set_up own.now port key.now g) first.now second.now (length list.old) }
    ensures list_after { list.new ≡ room_of (set_up own.now port key.now g) first.now second.now list.old }
{
    let s = set_up(own, port, key, g);
    s.check?;
    Ok(compare_captures(s.listener, first, second, list))
}
