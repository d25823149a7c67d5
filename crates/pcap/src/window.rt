// A window on a capture, in which a walker goes on: the bytes that it left, and behind them what was read.
ghost use Rattle.std.specs.Prelude.{◌≡◌, length};
ghost use Rattle.lists.specs.Bytes.{overwrite};
ghost use Rattle.pcap.specs.Window.{left_in, refilled};

use lists::copy::copy;

// Moves the bytes from `at` to `end` to the start, and returns how many there are.
#[tactic(auto, using(crate::proofs::Refills::moved))]
fn move_to_start(window: &mut [u8], at: usize, end: usize) -> usize
    ensures value { result ≡ length (left_in at end window.old) }
    ensures window_after { window.new ≡ overwrite (left_in at end window.old) window.old }
{
    let end = usize::min(end, window.len());
    let at = usize::min(at, end);
    window.copy_within(at..end, 0);
    end - at
}

// The bytes that are left, from `at` to `end`, go to the window's start, and what was read behind them, as much as fits. Returns how many there are then.
#[tactic(auto, using(crate::proofs::Refills::behind))]
pub fn refill(window: &mut [u8], at: usize, end: usize, read: &[u8]) -> usize
    ensures value { result ≡ length (refilled at end read.now window.old) }
    ensures window_after { window.new ≡ overwrite (refilled at end read.now window.old) window.old }
{
    let n = move_to_start(window, at, end);
    n + copy(read, &mut window[n..])
}
