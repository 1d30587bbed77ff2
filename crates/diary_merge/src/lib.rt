//! The merge of diaries: all steps of all nodes in the order of (time, node), as events of a world.
//!
//! `merging.rt` has the call. `place.rt` says by which key steps stand in order, `numbers.rt` and `same.rt` which message
//! a receipt or a peek means, `limits.rt` and `weights.rt` how large a diary may be. No node stands here: entries are read
//! as they are, and what led to them is known by the laws on diaries alone.
#![tactic(auto)]

mod limits;
mod merging;
mod numbers;
mod place;
mod same;
mod weights;

pub use limits::{DIARY_WEIGHT_LIMIT, ENTRIES_LIMIT};
pub use merging::merge;
pub use place::{finds_none, key_at};
pub use weights::input_weight;
