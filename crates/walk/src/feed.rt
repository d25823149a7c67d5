// A record of a capture, fed to a listener: a whole packet with TCP to its address is a segment call, all else is skipped.
ghost use Rattle.std.specs.Prelude.{◌≡◌, length};
ghost use Rattle.lists.specs.Bytes.{overwrite};
ghost use Rattle.walk.specs.Feed.{millis, initial_number, is_fed_to, accepted_in, skipped_with, feed_of, feed_output};

use listener::calls::segment;
use listener::outcome::{accepted_part, new_outcome};
use packet::read::{find_tcp, source_part, tcp_part};
use protocol::outcome::{Event, Outcome};
use protocol::state::{Listener, LocalEndpoint};
use segment::options::no_remarks;
use segment::refusal::Refusal;

// What a record came to: a call's outcome, or, of a skipped one, one that is done and changes nothing, or 13. There is an outcome in both cases, since it
// has the listener.
#[derive(Clone, Copy, Drop)]
pub struct Fed {
    pub is_fed: bool,
    pub outcome: Outcome,
}

// A record's time in whole ms.
pub fn time_of(seconds: u32, micros: u32) -> u64
    ensures { result ≡ millis seconds micros }
{
    u64::from(seconds) * 1000 + u64::from(micros / 1000)
}

// Our initial number for the record at a place.
pub fn number_at(place: u64) -> u32
    ensures { result ≡ initial_number place }
{
    (place % 4294967296) as u32
}

// Whether a record with this packet is fed to a listener with this endpoint.
#[tactic(auto, unfolding(crate::specs::Feed::is_fed_to))]
pub fn is_fed(local: LocalEndpoint, packet: &[u8]) -> bool
    ensures { result ≡ is_fed_to local packet.now }
{
    local.started && find_tcp(local.family, local.own, packet).is_some()
}

// The accepted part of a packet that was fed, and came to this event.
#[tactic(auto, unfolding(crate::specs::Feed::accepted_in))]
pub fn accepted_in(local: LocalEndpoint, packet: &[u8], e: Event) -> &[u8]
    ensures { result.now ≡ accepted_in local packet.now e }
{
    accepted_part(
        tcp_part(packet, find_tcp(local.family, local.own, packet)),
        e,
    )
}

fn skipped(l: Listener, event: Event) -> Fed
    ensures { result ≡ skipped_with l event }
{
    Fed {
        is_fed: false,
        outcome: new_outcome(l, event, 0, no_remarks()),
    }
}

// Feeds the packet of the record at a place, counted from 0 with skipped ones, to a listener.
#[tactic(auto, unfolding(crate::specs::Feed::feed_of, crate::specs::Feed::feed_output, crate::specs::Feed::call_of))]
pub fn feed(
    l: Listener,
    place: u64,
    seconds: u32,
    micros: u32,
    packet: &[u8],
    out: &mut [u8],
) -> Fed
    ensures value { result ≡ feed_of l place seconds micros packet.now (length out.old) }
    ensures out_after { out.new ≡ overwrite (feed_output l place seconds micros packet.now (length out.old)) out.old }
{
    let local = l.local;
    if !local.started {
        return skipped(l, Event::Refused(Refusal::NotStarted));
    }
    let carried = find_tcp(local.family, local.own, packet);
    if carried.is_none() {
        return skipped(l, Event::Done);
    }
    Fed {
        is_fed: true,
        outcome: segment(
            l,
            time_of(seconds, micros),
            source_part(local.family, packet),
            tcp_part(packet, carried),
            number_at(place),
            out,
        ),
    }
}
