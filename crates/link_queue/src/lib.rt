//! A link from one thread to another: frames go in at one end and come out at the other, in their
//! order, each once. Neither end blocks: a full link hands a frame back, an empty one gives none.
#![tactic(auto)]

mod ends;
mod frame;
mod rule;
#[cfg(test)]
mod tests;

pub use ends::{SendEnd, TakeEnd, close, link};
pub use frame::Frame;
