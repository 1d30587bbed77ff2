//! What a leader has on its way: the batches that are being placed and ordered, up to four at once,
//! and the reads that wait until a position is bound.
//!
//! A [`Binder`] is made with all the room that it will ever need. It decides nothing by itself and
//! sends nothing: a leader tells it each answer, and asks it what follows. Contracts see in it the
//! batches and reads of the rules, which `lazy_rules` defines.
#![tactic(auto)]

mod answers;
mod batch;
mod binding;
mod flight;
mod probe;
mod slot;
mod waiting;

pub use batch::{Batch, Progress};
pub use binding::Binder;
pub use probe::Probe;
