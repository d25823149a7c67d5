// Plays a script of the calls on a client's memory from standard input and prints a line for each: what the call came to. A line is answered as soon as it is
// complete, so that the program can be driven through a pipe.
#![tactic(auto)]

use client::calls::never_started;
use client_player::play::OnMemory;
use text::play::play_lines;

fn main(rt: HostRuntime) {
    play_lines::<OnMemory, _, _>(never_started(), &mut rt.stdin(), &mut rt.stdout());
}
