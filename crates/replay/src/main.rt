// Plays a script of a listener's calls from standard input and prints a line for each: what the call came to. A line is answered as soon as it is
// complete, so that the program can be driven through a pipe.
#![tactic(auto)]

use listener::calls::never_started;
use player::play::OnListener;
use text::play::play_lines;

fn main(rt: HostRuntime) {
    play_lines::<OnListener, _, _>(never_started(), &mut rt.stdin(), &mut rt.stdout());
}
