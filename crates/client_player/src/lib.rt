// Plays the replay format's lines on a client's memory: a line is read, made a call, and what it came to is put as text.
#![tactic(auto)]

mod line;
pub mod play;
mod read;
