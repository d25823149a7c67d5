// The start and the calls. Each call carries a time in ms and returns the memory next; a refused one returns the memory as it was and leaves the output alone.
ghost use Rattle.std.specs.Prelude.{◌≡◌, not, ◌&&◌, ◌≤◌, length};
ghost use Rattle.lists.specs.Bytes.{overwrite};
ghost use Rattle.segment.specs.Remarks.{no_remarks};
ghost use Rattle.endpoint.specs.Checks.{last_time};
ghost use Rattle.client.specs.Refusals.{most_sent};
ghost use Rattle.client.specs.Call.{Call};
ghost use Rattle.client.specs.Step.{blank, never_started, start_of, sent_with, is_unacknowledged, has_cookie, outcome, step, output_of, moved};

use crate::bans::{Name, is_banned, no_ban, set_ban};
use crate::cache::{Entry, cookie_length, data_room, entry_for, learn, stored_cookie};
use crate::checks::{check_answer, check_open};
use crate::outcome::{ActiveOpen, Attempt, Event, Outcome, Started, new_outcome};
use crate::state::{Memory, PLACES};
use endpoint::address::{Family, block_of, family_of, is_size};
use endpoint::checks::check_name;
use segment::header::option_area;
use segment::options::{Codings, FastOpenOption, cookie, no_remarks, segment_options};
use segment::refusal::Refusal;
use segment::write::{Opening, write_opening};

// What a call comes to on which nothing is remarked.
fn unremarked(m: Memory, event: Event, written: usize) -> Outcome
    ensures { result ≡ outcome m event written no_remarks }
{
    new_outcome(m, event, written, no_remarks())
}

// A refused call changes nothing.
fn refused(m: Memory, why: Refusal) -> Outcome
    ensures { result ≡ outcome m (Event.Refused why) 0 no_remarks }
{
    unremarked(m, Event::Refused(why), 0)
}

// A memory with nothing stored and no ban, at time 0.
fn blank_memory(started: bool, family: Family) -> Memory
    ensures { result ≡ blank started family }
{
    Memory {
        cache: [None; PLACES],
        bans: [no_ban(); PLACES],
        started,
        family,
        clock: 0,
    }
}

// The memory of a refused start.
pub fn never_started() -> Memory
    ensures { result ≡ never_started }
{
    blank_memory(false, Family::V4)
}

// Starts a memory for the family whose addresses have `size` bytes.
#[tactic(auto, unfolding(crate::specs::Step::start_of))]
pub fn start(size: usize) -> Started
    ensures { result ≡ start_of size }
{
    if !is_size(size) {
        return Started {
            memory: never_started(),
            check: Err(Refusal::Address),
        };
    }
    Started {
        memory: blank_memory(true, family_of(size)),
        check: Ok(()),
    }
}

// The memory at a time.
fn at_time(m: Memory, time: u64) -> Memory
    ensures { result ≡ moved m time m.cache m.bans }
{
    Memory { clock: time, ..m }
}

// How many bytes of the data offered are sent.
#[tactic(auto, using(crate::proofs::After::room_most))]
fn sent_with(family: Family, banned: bool, e: Option<Entry>, offered: usize) -> usize
    ensures value { result ≡ sent_with family banned e offered }
    ensures upper_bound { (result ≤ offered) × (result ≤ most_sent) }
{
    if banned || cookie_length(e) == 0 {
        return 0;
    }
    offered.min(data_room(family, e))
}

// Writes an opening to a server, as the memory has it at the time: an output of under 1,504 bytes is refused. The event has how many bytes of data were sent.
#[tactic(auto, using(crate::proofs::Step::open_kept, crate::proofs::Step::open_mss), unfolding(crate::specs::Step::step, crate::specs::Step::after, crate::specs::Step::output_of, crate::specs::Refusals::call_check))]
pub fn connect(
    m: Memory,
    time: u64,
    own: &[u8],
    server: &[u8],
    o: ActiveOpen,
    offered: &[u8],
    out: &mut [u8],
) -> Outcome
    ensures value { result ≡ step m (Call.connect time own.now server.now o offered.now (length out.old)) }
    ensures out_after { out.new ≡ overwrite (output_of m (Call.connect time own.now server.now o offered.now (length out.old))) out.old }
{
    if let Err(why) = check_open(&m, time, own, server, o.mss, out.len()) {
        return refused(m, why);
    }
    let b = block_of(server);
    let name = Name {
        addr: b,
        port: o.dest,
    };
    let banned = is_banned(&m.bans, time, name);
    let stored = entry_for(&m.cache, b);
    let n = sent_with(m.family, banned, stored, offered.len());
    let opening = Opening {
        source: o.source,
        dest: o.dest,
        iss: o.iss,
        mss: o.mss as u16,
        fast: !banned,
    };
    let cookie = stored_cookie(stored);
    let written = write_opening(out, own, server, opening, cookie.as_slice(), &offered[..n]);
    unremarked(at_time(m, time), Event::Opened(n as u32), written)
}

// Whether an answer is negative: data was sent, none is acknowledged, and no cookie comes.
fn is_negative(sent: u32, acknowledged: u32, fast: FastOpenOption) -> bool
    ensures { result ≡ is_unacknowledged sent acknowledged && not (has_cookie fast) }
{
    sent != 0 && acknowledged == 0 && !matches!(fast, FastOpenOption::Cookie { .. })
}

// Takes the answer to an attempt, whose Fast Open option counts in these codings. The event has how many bytes of the data sent it acknowledges.
#[tactic(auto, using(crate::proofs::After::brought_is, crate::proofs::After::brought_most))]
pub fn answer(
    m: Memory,
    time: u64,
    own: &[u8],
    server: &[u8],
    a: Attempt,
    seg: &[u8],
    codings: Codings,
) -> Outcome
    ensures { result ≡ step m (Call.answer time own.now server.now a seg.now codings) }
{
    let n = match check_answer(&m, time, own, server, a, seg) {
        Err(why) => return refused(m, why),
        Ok(n) => n,
    };
    let b = block_of(server);
    let found = segment_options(codings, seg);
    let options = found.options;
    let area = option_area(seg);
    let mut next = at_time(m, time);
    learn(&mut next.cache, b, cookie(area, options.fast), options.mss);
    if is_negative(a.sent, n, options.fast) {
        let name = Name {
            addr: b,
            port: a.dest,
        };
        set_ban(&mut next.bans, time, name);
    }
    new_outcome(next, Event::Answered(n), 0, found.remarks)
}

// Takes the report that an attempt at a server timed out or met an ICMP error: the server is banned for 600,000 ms.
#[tactic(auto, using(crate::proofs::Step::failed_kept), unfolding(crate::specs::Step::step, crate::specs::Step::after, crate::specs::Refusals::call_check))]
pub fn failed(m: Memory, time: u64, server: &[u8], port: u16) -> Outcome
    ensures { result ≡ step m (Call.failed time server.now port) }
{
    if let Err(why) = check_name(m.started, m.family, m.clock, time, server) {
        return refused(m, why);
    }
    let mut next = at_time(m, time);
    let name = Name {
        addr: block_of(server),
        port,
    };
    set_ban(&mut next.bans, time, name);
    unremarked(next, Event::Reported, 0)
}
