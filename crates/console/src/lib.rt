// A program's arguments, files and standard streams, as bytes. Nothing is kept back: what is printed is written at once. What the system gives or
// takes no contract can say; so the functions are generic over what they read and write, and say which bytes go through them.
#![tactic(auto)]

pub mod arguments;
pub mod line;
pub mod source;
pub mod streams;
