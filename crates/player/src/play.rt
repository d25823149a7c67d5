// What lines are played on here: a listener.
ghost use Rattle.std.specs.Prelude.{◌≡◌, length};
ghost use Rattle.protocol.specs.Refusals.{release_of};
ghost use Rattle.protocol.specs.Step.{step};
ghost use Rattle.text.specs.Play.{played_in};
ghost use Rattle.text.specs.Put.{laid};
ghost use Rattle.player.specs.Request.{request_in};
ghost use Rattle.player.specs.Play.{start_outcome, outcome_of, lent_then, playing_with, request_playing, playing};
ghost use Rattle.player.specs.Order.{request_with};

use crate::line::{event_of, put_outcome};
use crate::read::{Order, out_len, read_request, seg_len};
use listener::calls::{abandon, close, resend, segment, set_key, set_settings, start};
use listener::outcome::{accepted_part, event_number, new_outcome};
use protocol::outcome::{Outcome, Started};
use protocol::state::Listener;
use segment::options::no_remarks;
use text::line::{MOST_BYTES, Reply};
use text::output::{FILL, MOST_OUTPUT};
use text::part::{first, first_mut};
use text::play::{Play, Played, bad_line, play_line as play_line_on};
use text::put::Text;

fn started(s: Started) -> Outcome
    ensures { result ≡ start_outcome s }
{
    let listener = s.listener;
    let check = s.check;
    let event = event_of(check);
    new_outcome(listener, event, 0, no_remarks())
}

fn release(l: Listener, established: bool, time: u64, addr: &[u8], port: u16) -> Outcome
    ensures { result ≡ step l (release_of established time addr.now port) }
{
    if established {
        return close(l, time, addr, port);
    }
    abandon(l, time, addr, port)
}

// Makes the request of an order, whose byte strings are in two buffers.
fn make_request(l: Listener, order: Order, a: &[u8], b: &[u8], lent: &mut [u8]) -> Outcome
    ensures value { result ≡ outcome_of l (request_with order a.now b.now (length lent.old)) }
    ensures lent_after { lent.new ≡ lent_then l (request_with order a.now b.now (length lent.old)) lent.old }
{
    match order {
        Order::Start { own, port, key } => started(start(first(a, own), port, first(b, key))),
        Order::Settings { time, settings } => set_settings(l, time, settings),
        Order::Key { time, key } => set_key(l, time, first(a, key)),
        Order::Segment {
            time,
            src,
            iss,
            seg,
            ..
        } => segment(l, time, first(a, src), first(b, seg), iss, lent),
        Order::Release {
            established,
            time,
            addr,
            port,
        } => release(l, established, time, first(a, addr), port),
        Order::Resend {
            time,
            addr,
            port,
            ..
        } => resend(l, time, first(a, addr), port, lent),
    }
}

// Plays an order, with so much output lent.
#[tactic(auto, using(text::proofs::Puts::puts, crate::proofs::Playing::brought))]
fn play_order(
    l: Listener,
    order: Order,
    a: &[u8],
    b: &[u8],
    lent: &mut [u8],
    text: &mut [u8],
) -> Played<Listener>
    ensures value { result ≡ played_in (length text.old) (playing_with l (request_with order a.now b.now (length lent.old)) lent.old) }
    ensures text_after { text.new ≡ laid 0 (playing_with l (request_with order a.now b.now (length lent.old)) lent.old).text text.old }
{
    let o = make_request(l, order, a, b, lent);
    let listener = o.listener;
    let event = o.event;
    let part = accepted_part(first(b, seg_len(order)), event);
    let mut line = Text { out: text, at: 0 };
    put_outcome(&mut line, o, lent, part);
    let reply = Reply::Number(event_number(event));
    Played {
        state: listener,
        reply,
        len: line.at,
    }
}

// A listener's lines.
pub struct OnListener;

impl Play for OnListener {
    type State = Listener;

    ghost asked = { λ l s. request_playing l (request_in s) };

    fn play_request(l: Listener, line: &[u8], text: &mut [u8]) -> Played<Listener> {
        let mut a = [0u8; MOST_BYTES];
        let mut b = [0u8; MOST_BYTES];
        let mut out = [FILL; MOST_OUTPUT];
        match read_request(line, &mut a, &mut b) {
            None => bad_line(l, text),
            Some(order) => play_order(l, order, &a, &b, first_mut(&mut out, out_len(order)), text),
        }
    }
}

// Plays a whole line of `len` bytes, of a longer one than is read its start, and puts the text that it prints at the start of `text`.
pub fn play_line(l: Listener, line: &[u8], len: usize, text: &mut [u8]) -> Played<Listener>
    ensures value { result ≡ played_in (length text.old) (playing l line.now len) }
    ensures text_after { text.new ≡ laid 0 (playing l line.now len).text text.old }
{
    play_line_on::<OnListener>(l, line, len, text)
}
