// The set-up: its lines are played as `replay` plays them, and their answers printed.
use console::streams::Console;
use listener::calls::never_started;
use player::play::OnListener;
use protocol::state::Listener;
use std::io;
use std::io::{Read, Write};
use text::play::play_lines;

// Where the answers go: to standard output; where they cannot, that is told, and the set-up goes on.
#[derive(Drop)]
struct Printed<'a> {
    streams: &'a mut Console,
}

impl<'a> Write for Printed<'a> {
    fn write(&mut self, text: &[u8]) -> io::Result<usize> {
        self.streams.print(text);
        Ok(text.len())
    }

    fn flush(&mut self) -> io::Result<()> {
        Ok(())
    }
}

// Plays all of it, and returns the listener.
pub(crate) fn play_setup<R: Read>(streams: &mut Console, source: &mut R) -> Listener {
    play_lines::<OnListener, _, _>(never_started(), source, &mut Printed { streams })
}
