//! The half of a client that appends: an append is sent until all whose word is wanted have
//! acknowledged it, or a shard told that it was rejected, over losses and changes of view.
//!
//! It touches nothing but its own state and the outbox that it is handed. Each input that it heeds
//! has a file.
#![tactic(auto)]

mod append_ack;
mod client;
mod data_ack;
mod door;
mod nodes;
mod open_append;
mod open_appends;
mod post;
mod progress;
mod rejected;
mod resending;
mod sending;
mod step;
mod tick;
mod view_is;

pub use client::{AppendClient, AppendState};
