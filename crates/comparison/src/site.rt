// One side of a comparison: a capture, walked through a window on it, and the listener that judges it.
ghost use Rattle.std.specs.Prelude.{◌≡◌, length, drop};
ghost use Rattle.lists.specs.Bytes.{overwrite};
ghost use Rattle.pcap.specs.Records.{packet_of};
ghost use Rattle.pcap.specs.Walker.{taken_of};
ghost use Rattle.walk.specs.Feed.{feed_output};
ghost use Rattle.comparison.specs.Site.{new_site, stand_by, look_of, judging_of, site_passed};

use pcap::record::{RecordHead, packet_in, rest_from};
use pcap::walker::{Taken, Walker, finish, new_walker, take_next};
use protocol::outcome::Event;
use protocol::state::Listener;
use segment::refusal::Refusal;
use walk::feed::{feed, is_fed};

// A window on a capture, and the place in it where the walk is; behind the last one no byte is to come.
#[derive(Clone, Copy, Drop)]
pub struct Window<'a> {
    pub bytes: &'a [u8],
    pub at: usize,
    pub last: bool,
}

// The listener, how far the walk is, and how many records were fed.
#[derive(Clone, Copy, Drop)]
pub struct Site {
    pub listener: Listener,
    pub walker: Walker,
    pub fed: u64,
}

// What stands at a place of the window: the file header or a record that is skipped; a record that is to be fed; not enough bytes yet; or the capture is
// over, with its number.
#[derive(Clone, Copy, Drop)]
pub enum Stand {
    Passed,
    Fed(RecordHead),
    Needs,
    Over(Result<(), Refusal>),
}

// What stands there, the walker behind it, and the place in the window where it goes on.
#[derive(Clone, Copy, Drop)]
pub struct Look {
    pub stand: Stand,
    pub walker: Walker,
    pub next: usize,
}

// A record that is to be fed, the walker behind it, and the place in the window where it goes on.
#[derive(Clone, Copy, Drop)]
pub(crate) struct Record<'a> {
    pub(crate) head: RecordHead,
    pub(crate) packet: &'a [u8],
    pub(crate) behind: Walker,
    pub(crate) next: usize,
}

// A record was fed: the site next, what happened, and how many bytes were written.
#[derive(Clone, Copy, Drop)]
pub struct Judging {
    pub site: Site,
    pub event: Event,
    pub written: usize,
}

impl<'a> Window<'a> {
    // The packet of the record at the place.
    pub(crate) fn packet(self, head: RecordHead) -> &'a [u8]
        ensures { result.now ≡ packet_of head (drop self.entry.at self.entry.bytes.now) }
    {
        packet_in(rest_from(self.bytes, self.at), head.captured)
    }

    // The record at the place, where a look found it.
    pub(crate) fn record(self, head: RecordHead, k: Look) -> Record<'a>
        ensures head { result.head ≡ head }
        ensures packet { result.packet.now ≡ packet_of head (drop self.entry.at self.entry.bytes.now) }
        ensures behind { result.behind ≡ k.walker }
        ensures next { result.next ≡ k.next }
    {
        Record {
            head,
            packet: self.packet(head),
            behind: k.walker,
            next: k.next,
        }
    }
}

impl Site {
    pub(crate) fn new(listener: Listener) -> Site
        ensures { result ≡ new_site listener }
    {
        Site {
            listener,
            walker: new_walker(),
            fed: 0,
        }
    }

    // By the walker's step. Where more bytes are needed and none are to come, the capture is over. (One that is longer than can be counted ends as a cut one.)
    fn stand(&self, window: Window, taken: Taken) -> Stand
        ensures { result ≡ stand_by self.now.listener.local self.now.walker (drop window.entry.at window.entry.bytes.now) window.entry.last taken }
    {
        match taken {
            Taken::Opened(_) => Stand::Passed,
            Taken::Record(head) => {
                if is_fed(self.listener.local, window.packet(head)) {
                    return Stand::Fed(head);
                }
                Stand::Passed
            }
            Taken::More => {
                if window.last {
                    return Stand::Over(finish(self.walker, window.bytes, window.at));
                }
                Stand::Needs
            }
            Taken::Bad => Stand::Over(Err(Refusal::BadCapture)),
            Taken::TooLong => Stand::Over(Err(Refusal::CutRecord)),
        }
    }

    // What stands at the place of the window.
    #[tactic(auto, unfolding(crate::specs::Site::look_of, pcap::specs::Walker::step_of))]
    pub(crate) fn look_at(&self, window: Window) -> Look
        ensures { result ≡ look_of self.now.listener.local self.now.walker window.entry.bytes.now window.entry.at window.entry.last }
    {
        let step = take_next(self.walker, window.bytes, window.at);
        Look {
            stand: self.stand(window, step.taken),
            walker: step.walker,
            next: step.next,
        }
    }

    // The site behind what stands there, where nothing is fed.
    pub(crate) fn pass(&self, behind: Walker) -> Site
        ensures { result ≡ site_passed self.now behind }
    {
        Site {
            walker: behind,
            ..*self
        }
    }

    // Feeds a record.
    pub(crate) fn judge(&self, r: Record, out: &mut [u8]) -> Judging
        ensures value { result ≡ judging_of self.now r.entry.behind r.entry.head r.entry.packet.now (length out.old) }
        ensures out_after { out.new ≡ overwrite (feed_output self.now.listener self.now.walker.records r.entry.head.seconds r.entry.head.micros r.entry.packet.now (length out.old)) out.old }
    {
        let head = r.head;
        let fed = feed(
            self.listener,
            self.walker.records,
            head.seconds,
            head.micros,
            r.packet,
            out,
        );
        let outcome = fed.outcome;
        Judging {
            site: Site {
                listener: outcome.listener,
                walker: r.behind,
                fed: self.fed.wrapping_add(1),
            },
            event: outcome.event,
            written: outcome.written,
        }
    }
}
