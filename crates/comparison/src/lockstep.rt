// Two captures in lockstep, each through a window on it: a turn passes a file header or a skipped record, or takes one fed record of each, or one of the longer.
ghost use Rattle.std.specs.Prelude.{◌≡◌, length};
ghost use Rattle.comparison.specs.Account.{judged_as};
ghost use Rattle.comparison.specs.Listing.{tallied, list_then};
ghost use Rattle.comparison.specs.Site.{site_fed};
ghost use Rattle.comparison.specs.Lockstep.{new_comparison, stay, pair_difference, judged_with, advance_of, list_next};

use crate::difference::{Judged, compare_answers};
use crate::list::{Tally, new_tally, take_difference};
use crate::site::{Judging, Record, Site, Stand, Window};
use protocol::state::Listener;
use segment::header::part;
use segment::refusal::Refusal;
use walk::feed::accepted_in;

// How many bytes of output are lent to a call.
const LENT: usize = 64;

// The difference of a record that has no pair: document 02 has this number for its place.
const UNPAIRED: Option<u64> = Some(u64::MAX);

// Both sides, and the list so far.
#[derive(Clone, Copy, Drop)]
pub struct Comparison {
    pub first: Site,
    pub second: Site,
    pub tally: Tally,
}

// How the two captures ended.
#[derive(Clone, Copy, Drop)]
pub struct Ends {
    pub first: Result<(), Refusal>,
    pub second: Result<(), Refusal>,
}

// What a turn came to: it went on; the first or the second window needs more bytes; or both captures are over.
#[derive(Clone, Copy, Drop)]
pub enum Turn {
    Went,
    NeedsFirst,
    NeedsSecond,
    Over(Ends),
}

// The comparison next, what the turn came to, and the places in both windows where it goes on.
#[derive(Clone, Copy, Drop)]
pub struct Advance {
    pub comparison: Comparison,
    pub turn: Turn,
    pub at1: usize,
    pub at2: usize,
}

// Both sites begin with a listener of their own, in one state. (On one that was never started every record is skipped.)
pub fn new_comparison(l: Listener) -> Comparison
    ensures { result ≡ new_comparison l }
{
    Comparison {
        first: Site::new(l),
        second: Site::new(l),
        tally: new_tally(),
    }
}

// Feeds a record that has no pair.
fn judge_alone(s: &mut Site, r: Record)
    ensures { s.new ≡ site_fed s.old r.entry.behind r.entry.head r.entry.packet.now }
{
    let mut out = [0u8; LENT];
    let j = s.judge(r, &mut out);
    *s = j.site;
}

// What was judged of a packet, with the answer in the output.
fn judged<'a>(j: &Judging, packet: &'a [u8], out: &'a [u8]) -> Judged<'a>
    ensures { judged_as result.event result.part.now result.output.now ≡ judged_with j.entry.now packet.entry.now out.entry.now }
{
    Judged {
        event: j.event,
        part: accepted_in(j.site.listener.local, packet, j.event),
        output: part(out, 0, j.written),
    }
}

// Takes a fed record of each site.
fn take_pair(c: &mut Comparison, r1: Record, r2: Record, list: &mut [u64])
    ensures value { c.new ≡ record { first = site_fed c.old.first r1.entry.behind r1.entry.head r1.entry.packet.now; second = site_fed c.old.second r2.entry.behind r2.entry.head r2.entry.packet.now; tally = tallied (length list.old) c.old.tally (pair_difference c.old r1.entry.head r1.entry.packet.now r2.entry.head r2.entry.packet.now) } }
    ensures list_after { list.new ≡ list_then c.old.tally (pair_difference c.old r1.entry.head r1.entry.packet.now r2.entry.head r2.entry.packet.now) list.old }
{
    let mut out1 = [0u8; LENT];
    let mut out2 = [0u8; LENT];
    let j1 = c.first.judge(r1, &mut out1);
    let j2 = c.second.judge(r2, &mut out2);
    let d = compare_answers(judged(&j1, r1.packet, &out1), judged(&j2, r2.packet, &out2));
    let tally = take_difference(list, c.tally, d);
    *c = Comparison {
        first: j1.site,
        second: j2.site,
        tally,
    };
}

// Makes a turn where the comparison lies, since a copy of it costs more than a skipped record: what it came to, and the places where it goes on.
#[tactic(auto, unfolding(crate::specs::Lockstep::advance_of, crate::specs::Lockstep::list_next))]
fn go_on(
    c: &mut Comparison,
    first: Window,
    second: Window,
    list: &mut [u64],
) -> (Turn, usize, usize)
    ensures value { stay c.new result.0 result.1 result.2 ≡ advance_of c.old first.entry.bytes.now first.entry.at first.entry.last second.entry.bytes.now second.entry.at second.entry.last (length list.old) }
    ensures list_after { list.new ≡ list_next c.old first.entry.bytes.now first.entry.at first.entry.last second.entry.bytes.now second.entry.at second.entry.last list.old }
{
    let one = c.first.look_at(first);
    match one.stand {
        Stand::Passed => {
            c.first = c.first.pass(one.walker);
            return (Turn::Went, one.next, second.at);
        }
        Stand::Needs => return (Turn::NeedsFirst, first.at, second.at),
        Stand::Fed(_) | Stand::Over(_) => {}
    }
    // Not before: where the first is passed, this look would be made again in the next turn.
    let two = c.second.look_at(second);
    match (one.stand, two.stand) {
        (Stand::Passed | Stand::Needs, _) => unreachable!(),
        (_, Stand::Passed) => {
            c.second = c.second.pass(two.walker);
            (Turn::Went, first.at, two.next)
        }
        (_, Stand::Needs) => (Turn::NeedsSecond, first.at, second.at),
        (Stand::Over(end), Stand::Over(other)) => {
            let ends = Ends {
                first: end,
                second: other,
            };
            (Turn::Over(ends), first.at, second.at)
        }
        (Stand::Fed(head), Stand::Over(_)) => {
            let r = first.record(head, one);
            judge_alone(&mut c.first, r);
            c.tally = take_difference(list, c.tally, UNPAIRED);
            (Turn::Went, r.next, second.at)
        }
        (Stand::Over(_), Stand::Fed(head)) => {
            let r = second.record(head, two);
            judge_alone(&mut c.second, r);
            c.tally = take_difference(list, c.tally, UNPAIRED);
            (Turn::Went, first.at, r.next)
        }
        (Stand::Fed(head1), Stand::Fed(head2)) => {
            let r1 = first.record(head1, one);
            let r2 = second.record(head2, two);
            take_pair(c, r1, r2, list);
            (Turn::Went, r1.next, r2.next)
        }
    }
}

// Makes a turn at a place of each window.
pub fn take_turn(mut c: Comparison, first: Window, second: Window, list: &mut [u64]) -> Advance
    ensures value { result ≡ advance_of c first.entry.bytes.now first.entry.at first.entry.last second.entry.bytes.now second.entry.at second.entry.last (length list.old) }
    ensures list_after { list.new ≡ list_next c first.entry.bytes.now first.entry.at first.entry.last second.entry.bytes.now second.entry.at second.entry.last list.old }
{
    let (turn, at1, at2) = go_on(&mut c, first, second, list);
    Advance {
        comparison: c,
        turn,
        at1,
        at2,
    }
}
