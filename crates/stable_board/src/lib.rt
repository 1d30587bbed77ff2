//! The board: which record stands where, in words that replicas write and readers load.
//!
//! A replica of a shard has a [`Publisher`], which sets the word of each place of its stable order and
//! then raises word 0 to its claim. A reader has a [`Peeker`], which asks nobody: a peek is one load.
//! What each of them did and saw is kept beside them, in proofs alone, and compared once all have
//! ended ([`Keeper::close`]). Only [`board`] takes memory, and nothing here waits.
#![tactic(auto)]

mod claim;
mod keeper;
mod peeker;
mod plays;
mod publisher;
mod rule;
mod views;

pub use claim::BoardClaim;
pub use keeper::{Keeper, board};
pub use peeker::{Peeker, PeekerList};
pub use publisher::{Claimed, Publisher, PublisherList};
