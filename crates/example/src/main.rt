// A client and a listener in one process. The first opening asks for a cookie; the second brings it with data, which the listener is given before the
// handshake is complete. Rattle proves the whole program without a proof file.
#![tactic(auto)]

use client::calls::{answer, connect};
use client::outcome::{ActiveOpen, Attempt, Event as ClientEvent, event_count};
use client::state::Memory;
use console::streams::{Console, Streams};
use listener::calls::{pending, segment, set_settings};
use listener::outcome::accepted_part;
use protocol::outcome::Event;
use protocol::state::{Listener, Settings};
use segment::options::Codings;
use segment::refusal::Refusal;
use segment::write::{LONGEST_OPENING, LONGEST_SYN_ACK};
use text::part::first;

const CLIENT: [u8; 4] = [192, 0, 2, 1];

const SERVER: [u8; 4] = [192, 0, 2, 2];

// Both ends, between two exchanges.
#[derive(Drop)]
struct Ends {
    memory: Memory,
    listener: Listener,
}

// How many bytes a client's call sent or had acknowledged, where it was done.
fn bytes_of(event: ClientEvent) -> Result<u32, Refusal> {
    match event {
        ClientEvent::Refused(why) => Err(why),
        done => Ok(event_count(done)),
    }
}

// The client opens a connection and offers data, the listener takes the opening, the client takes the SYN-ACK.
fn exchange(streams: &mut Console, ends: Ends, time: u64, port: u16) -> Result<Ends, Refusal> {
    let mut sent = [0u8; LONGEST_OPENING];
    let open = ActiveOpen {
        source: port,
        dest: 443,
        iss: 1000,
        mss: 1460,
    };
    let opened = connect(
        ends.memory,
        time,
        &CLIENT,
        &SERVER,
        open,
        b"hello",
        &mut sent,
    );
    let data = bytes_of(opened.event)?;
    let opening = first(&sent, opened.written);
    streams.offer_line(format_args!("the client sends {} bytes, data {data}", opening.len()));

    let mut back = [0u8; LONGEST_SYN_ACK];
    let taken = segment(ends.listener, time, &CLIENT, opening, 7000, &mut back);
    let early = match taken.event {
        Event::Refused(why) => return Err(why),
        Event::FastOpened(_) => accepted_part(opening, taken.event),
        _ => b"nothing",
    };
    streams.offer_line(format_args!("handed over early: {}", early.escape_ascii()));
    let syn_ack = first(&back, taken.written);
    streams.offer_line(format_args!(
        "the listener sends {} bytes, pending {}",
        syn_ack.len(),
        pending(taken.listener)
    ));

    let attempt = Attempt {
        source: port,
        dest: 443,
        iss: 1000,
        sent: data,
    };
    let answered = answer(
        opened.memory,
        time,
        &CLIENT,
        &SERVER,
        attempt,
        syn_ack,
        Codings::NewOnly,
    );
    let acknowledged = bytes_of(answered.event)?;
    streams.offer_line(format_args!(
        "the client takes {} bytes, acknowledged {acknowledged}",
        syn_ack.len()
    ));
    Ok(Ends {
        memory: answered.memory,
        listener: taken.listener,
    })
}

// Two exchanges. Here the key and the initial numbers of both ends, 1000 and 7000, are fixed; in use they have to be hard to guess. The settings are not
// refused.
fn run(streams: &mut Console) -> Result<(), Refusal> {
    let client = client::calls::start(4);
    client.check?;
    let server = listener::calls::start(&SERVER, 443, &[7; 16]);
    server.check?;
    let settings = Settings {
        on: true,
        limit: 8,
        early_room: 1460,
        hold: 1000,
        mss: 1460,
        codings: Codings::NewOnly,
        share: 8,
    };
    let set = set_settings(server.listener, 0, settings);
    let ends = Ends {
        memory: client.memory,
        listener: set.listener,
    };
    streams.offer_line("first opening, to get a cookie");
    let ends = exchange(streams, ends, 1, 40000)?;
    streams.offer_line("second opening, to send data early");
    exchange(streams, ends, 2, 40001)?;
    Ok(())
}

fn main(rt: HostRuntime) {
    let mut streams = Streams {
        out: rt.stdout(),
        err: rt.stderr(),
    };
    if let Err(why) = run(&mut streams) {
        streams.offer_line(format_args!("refused {}", u8::from(why)));
    }
}
