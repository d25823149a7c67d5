// What lines are played on here: a client's memory.
ghost use Rattle.std.specs.Prelude.{◌≡◌, length};
ghost use Rattle.text.specs.Play.{played_in};
ghost use Rattle.text.specs.Put.{laid};
ghost use Rattle.client_player.specs.Request.{request_in};
ghost use Rattle.client_player.specs.Play.{start_outcome, outcome_of, lent_then, playing_with, request_playing, playing};
ghost use Rattle.client_player.specs.Order.{request_with};

use crate::line::{event_of, put_outcome};
use crate::read::{Order, out_len, read_request};
use client::calls::{answer, connect, failed, start};
use client::outcome::{ActiveOpen, Attempt, Outcome, Started, event_number, new_outcome};
use client::state::Memory;
use segment::options::{codings_of, no_remarks};
use text::line::{MOST_BYTES, Reply};
use text::output::{FILL, MOST_OUTPUT};
use text::part::{first, first_mut};
use text::play::{Play, Played, bad_line, play_line as play_line_on};
use text::put::Text;

fn started(s: Started) -> Outcome
    ensures { result ≡ start_outcome s }
{
    let memory = s.memory;
    let check = s.check;
    let event = event_of(check);
    new_outcome(memory, event, 0, no_remarks())
}

// Makes the request of an order, whose byte strings are in three buffers.
fn make_request(m: Memory, order: Order, a: &[u8], b: &[u8], d: &[u8], lent: &mut [u8]) -> Outcome
    ensures value { result ≡ outcome_of m (request_with order a.now b.now d.now (length lent.old)) }
    ensures lent_after { lent.new ≡ lent_then m (request_with order a.now b.now d.now (length lent.old)) lent.old }
{
    match order {
        Order::Start { size } => started(start(size)),
        Order::Open {
            ends,
            mss,
            offered,
            ..
        } => connect(
            m,
            ends.time,
            first(a, ends.own),
            first(b, ends.server),
            ActiveOpen {
                source: ends.source,
                dest: ends.dest,
                iss: ends.iss,
                mss,
            },
            first(d, offered),
            lent,
        ),
        Order::Answer {
            ends,
            sent,
            seg,
            both,
        } => answer(
            m,
            ends.time,
            first(a, ends.own),
            first(b, ends.server),
            Attempt {
                source: ends.source,
                dest: ends.dest,
                iss: ends.iss,
                sent,
            },
            first(d, seg),
            codings_of(both),
        ),
        Order::Failed { time, server, port } => failed(m, time, first(a, server), port),
    }
}

// Plays an order, with so much output lent.
#[tactic(auto, using(text::proofs::Puts::puts))]
fn play_order(
    m: Memory,
    order: Order,
    a: &[u8],
    b: &[u8],
    d: &[u8],
    lent: &mut [u8],
    text: &mut [u8],
) -> Played<Memory>
    ensures value { result ≡ played_in (length text.old) (playing_with m (request_with order a.now b.now d.now (length lent.old)) lent.old) }
    ensures text_after { text.new ≡ laid 0 (playing_with m (request_with order a.now b.now d.now (length lent.old)) lent.old).text text.old }
{
    let o = make_request(m, order, a, b, d, lent);
    let memory = o.memory;
    let event = o.event;
    let mut line = Text { out: text, at: 0 };
    put_outcome(&mut line, o, lent);
    let reply = Reply::Number(event_number(event));
    Played {
        state: memory,
        reply,
        len: line.at,
    }
}

// A client's lines.
pub struct OnMemory;

impl Play for OnMemory {
    type State = Memory;

    ghost asked = { λ m s. request_playing m (request_in s) };

    fn play_request(m: Memory, line: &[u8], text: &mut [u8]) -> Played<Memory> {
        let mut a = [0u8; MOST_BYTES];
        let mut b = [0u8; MOST_BYTES];
        let mut d = [0u8; MOST_BYTES];
        let mut out = [FILL; MOST_OUTPUT];
        match read_request(line, &mut a, &mut b, &mut d) {
            None => bad_line(m, text),
            Some(order) => play_order(
                m,
                order,
                &a,
                &b,
                &d,
                first_mut(&mut out, out_len(order)),
                text,
            ),
        }
    }
}

// Plays a whole line of `len` bytes, of a longer one than is read its start, and puts the text that it prints at the start of `text`.
pub fn play_line(m: Memory, line: &[u8], len: usize, text: &mut [u8]) -> Played<Memory>
    ensures value { result ≡ played_in (length text.old) (playing m line.now len) }
    ensures text_after { text.new ≡ laid 0 (playing m line.now len).text text.old }
{
    play_line_on::<OnMemory>(m, line, len, text)
}
