//! One generic list, which contracts see as the list of its members.
//!
//! Every list type of the project is an alias of [`Sequence`] or a small type over it. This crate
//! stands on the standard library alone and knows nothing of logs.
#![tactic(auto)]

mod sequence;

pub use sequence::Sequence;
