//! A shard replica: it keeps the order and the records of its shard, as primary or as backup.
//!
//! It touches nothing but its own state and the outbox that it is handed. Each input has a file,
//! which is named by it. A step that is refused leaves all as it was: what a row sends is made from
//! the store as it will be, then put in the outbox, and only then is the store changed.
#![tactic(auto)]

mod ahead;
mod copied;
mod copy;
mod door;
mod draft;
mod fetch;
mod flush;
mod flush_copy;
mod grace;
mod node;
mod place;
mod put;
mod seat;
mod sending;
mod stable;
mod step;
mod trim;

pub use node::ShardNode;
