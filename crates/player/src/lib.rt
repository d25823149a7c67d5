// Plays the replay format's lines on a listener: a line is read, made a call, and what it came to is put as text.
#![tactic(auto)]

pub mod line;
pub mod play;
pub mod read;
