//! The scripts of a journal's tool: their lines, read into commands, and the texts that the tool prints.
//!
//! A line is parsed and a text is printed, and nothing is done here: there is no store, no disk and no
//! stream. A line stands here without its newline, and so does a text.
#![tactic(auto)]

mod command;
mod entries;
mod script_line;
mod texts;
mod words;

pub use command::Command;
pub use script_line::read_line;
pub use texts::{Refusal, bytes_text, end_text, kept_text, opened_text, refused_text};
