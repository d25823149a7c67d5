// The text of the replay programs: a line's words, numbers and byte strings are read, an outcome's line is put into a buffer, and standard input is taken part by part.
//
// No public function has a precondition: of a word that is no number or no byte string nothing is read, and a buffer takes as many bytes as fit.
#![tactic(auto)]

pub mod argument;
pub mod bytestring;
pub mod decimal;
pub mod line;
pub mod number;
pub mod output;
pub mod part;
pub mod play;
pub mod put;
pub mod reader;
pub mod scan;
pub mod word;
