//! The edges to the outside: where bytes come from, where they go to, and what a program ends with.
//!
//! A [`Source`] is read and a [`Sink`] is written. Contracts see how many faults each has had, so
//! that a program which reports a fault can be held to it. A count of faults stays at 2^64 - 1, its
//! last value: a fault may come there without a rise. There are forms over memory for tests and
//! examples, with and without calls that fail, and forms over the streams of the system.
#![tactic(auto)]

mod count;
mod mem;
mod plain;
mod plan;
mod sink;
mod source;
mod standard;
mod status;
mod whole;

pub use mem::{MemSink, MemSource};
pub use plain::{PlainSink, PlainSource};
pub use sink::{Sink, SinkFailed};
pub use source::{Failed, Source};
pub use standard::{StdSink, StdSource};
pub use status::Status;
pub use whole::write_all;
