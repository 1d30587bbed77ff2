//! A journal of stable entries as a tool: the program `lazylog_journal`, over any source and sink.
//!
//! A script adds entries to a store, makes them stable, keeps them on a disk in memory, stops that disk
//! at a call, and opens it again.
#![tactic(auto)]

mod tool;
mod top;
mod words;

pub use tool::{LINES_LIMIT, PLACES_LIMIT, Tool};
pub use top::journal_top;
pub use words::Shard;
