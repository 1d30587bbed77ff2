//! The records of a sequencing replica that have no place in the log yet, in their order.
//!
//! A log of pending items is made with all the room that it will ever have. The calls that look,
//! push and remove take no memory and cannot fail. No two of its items have one identity, and
//! finding one looks at the packed identities alone.
#![tactic(auto)]

mod log;
mod pieces;
mod ring;

pub use log::PendingLog;
