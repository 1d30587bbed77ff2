//! The streams of a program that reads a script: lines out of a source, and texts to a sink.
//!
//! A [`LineReader`] takes a source's bytes in pieces and gives them line by line, as soon as each is
//! there. `write_text` and its kin write a text by one write, where the sink takes it whole. `specs/` has
//! what the lines of some bytes are, and what a call does to the streams that it is handed.
#![tactic(auto)]

mod line_reader;
mod writing;

pub use line_reader::{LineError, LineReader, Next, PIECE};
pub use writing::{write_ended, write_text};
