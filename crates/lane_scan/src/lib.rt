//! Three scans over words of 64 bits. Those that look for a word look at eight in a step.
//!
//! Each answers what a loop over single words would answer, at every length. None takes memory and
//! none can fail. Nothing here knows what the words stand for.
#![tactic(auto)]

mod count;
mod find;

pub use count::count_bits;
pub use find::{find_word, first_not_full};
