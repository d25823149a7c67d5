// Sequence numbers, modulo 2^32 (RFC 9293, 3.4).
ghost use Rattle.std.specs.Prelude.{◌≡◌};
ghost use Rattle.segment.specs.Sequence.{next_after, in_window, acknowledged};

// The number after an initial number and so many bytes of data: document 01's acknowledgement and expected number.
#[tactic(auto, unfolding(crate::specs::Sequence::next_after))]
pub fn next_after(initial: u32, bytes: u32) -> u32
    ensures { result ≡ next_after initial bytes }
{
    initial.wrapping_add(1).wrapping_add(bytes)
}

// The window, which is that of every segment that is written.
pub const WINDOW: u32 = 65535;

// Whether a completion's sequence number is admitted.
#[tactic(auto, unfolding(crate::specs::Sequence::in_window, crate::specs::Sequence::difference))]
pub fn in_window(expected: u32, seq: u32) -> bool
    ensures { result ≡ in_window expected seq }
{
    let past = seq.wrapping_sub(expected);
    past < WINDOW
}

// How many bytes sent with an opening its SYN-ACK acknowledges. (More than were sent is for the caller to refuse.)
#[tactic(auto, unfolding(crate::specs::Sequence::acknowledged, crate::specs::Sequence::difference))]
pub fn acknowledged_bytes(iss: u32, ack: u32) -> u32
    ensures { result ≡ acknowledged iss ack }
{
    ack.wrapping_sub(iss).wrapping_sub(1)
}
