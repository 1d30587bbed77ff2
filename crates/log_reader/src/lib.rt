//! The half of a client that reads and trims: a read is fetched from the shards and put together, a
//! forced one is probed first, and a trim waits for all shard replicas, over losses and changes of view.
//!
//! It touches nothing but its own state and the outbox that it is handed. Each input that it heeds
//! has a file.
#![tactic(auto)]

mod answer;
mod ask;
mod door;
mod fetch;
mod force;
mod gathering;
mod nodes;
mod part;
mod probe_ack;
mod reader;
mod sends;
mod stage;
mod step;
mod tail_ready;
#[cfg(test)]
mod tests;
mod tick;
mod trim;
mod trim_ack;
mod trimmed_at;
mod trimmer;
mod view_is;

pub use reader::LogReader;
