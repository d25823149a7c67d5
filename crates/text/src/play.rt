// Lines of the replay format, played on what they are for: a listener, or a client's memory.
ghost use Rattle.std.specs.Prelude.{◌≡◌, ℕ, List, length};
ghost use Rattle.text.specs.Play.{Playing, Reaches, bad_playing, line_playing, played_in};
ghost use Rattle.text.specs.Put.{laid};

use crate::line::{LONGEST, Reply, is_silent};
use crate::part::first;
use crate::put::Text;
use crate::reader::{INPUT, new_reader, read_if_used_up, take_next};
use console::streams::offer;
use std::io::{Read, Write};

// A buffer of so many bytes takes the text of any line.
pub const TEXT: usize = 4096;

// What is played on next, the reply, and how many bytes of text were put.
#[derive(Clone, Copy, Drop)]
pub struct Played<S> {
    pub state: S,
    pub reply: Reply,
    pub len: usize,
}

// A way to play lines: on what, and what they come to.
pub trait Play {
    type State;

    // What a line comes to that is neither silent nor too long.
    ghost asked: { Self.State → List ℕ → Playing Self.State };

    // Plays such a line, and puts the text that it prints at the start of `text`.
    fn play_request(state: Self::State, line: &[u8], text: &mut [u8]) -> Played<Self::State>
        ensures value { result ≡ played_in (length text.old) (asked state line.now) }
        ensures text_after { text.new ≡ laid 0 (asked state line.now).text text.old };
}

// What is said to a line that cannot be read.
#[tactic(auto, using(crate::proofs::Puts::puts))]
pub fn bad_line<S>(state: S, text: &mut [u8]) -> Played<S>
    ensures value { result ≡ played_in (length text.old) (bad_playing state) }
    ensures text_after { text.new ≡ laid 0 (bad_playing state).text text.old }
{
    let mut out = Text { out: text, at: 0 };
    out.put_bad_line();
    Played {
        state,
        reply: Reply::Bad,
        len: out.at,
    }
}

// Plays a whole line of `len` bytes, of a longer one than is read its start, and puts the text that it prints at the start of `text`.
#[tactic(auto, using(crate::proofs::Puts::puts), unfolding(crate::specs::Play::line_playing))]
pub fn play_line<P: Play>(
    state: P::State,
    line: &[u8],
    len: usize,
    text: &mut [u8],
) -> Played<P::State>
    ensures value { result ≡ played_in (length text.old) (line_playing P.asked state line.now len) }
    ensures text_after { text.new ≡ laid 0 (line_playing P.asked state line.now len).text text.old }
{
    if is_silent(line) {
        return Played {
            state,
            reply: Reply::Silent,
            len: 0,
        };
    }
    if len > LONGEST {
        return bad_line(state, text);
    }
    P::play_request(state, line, text)
}

// Plays all lines of a source, each as soon as it is complete, writes the text of each, if it can, and returns what was played on. A proved loop has to end,
// and the source need not: its parts are counted down from a number that no script uses up.
pub fn play_lines<P: Play, R: Read, W: Write>(
    start: P::State,
    source: &mut R,
    out: &mut W,
) -> P::State
    ensures { Reaches P.asked start result }
{
    let mut input = [0u8; INPUT];
    let mut line = [0u8; LONGEST];
    let mut reader = new_reader();
    let mut state = start;
    while reader.left > 0 {
        let n = read_if_used_up(source, reader, &mut input);
        reader = take_next(reader, n, &input, &mut line);
        if reader.complete {
            let mut text = [0u8; TEXT];
            let played = play_line::<P>(state, first(&line, reader.len), reader.len, &mut text);
            offer(out, first(&text, played.len));
            state = played.state;
        }
    }
    state
}
