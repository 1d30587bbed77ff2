//! What a replica of a shard stores: the order of all records with the data of its own ones, the
//! data that came before its place, how far the order is final, and below which place data was
//! given up.
//!
//! It knows the rules of a store and nothing of views, messages or other replicas. An index by
//! identity stands beside the order, so that no search looks at the whole of it.
#![tactic(auto)]

mod cutting;
mod drafts;
mod entries;
mod forecast;
mod held;
mod kinds;
mod links;
mod order;
mod searching;
mod settling;
mod store;

pub use store::ShardStore;
