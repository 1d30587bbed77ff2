//! A script of old frames brought over, from any source to any sink: the word `recode` of the program of
//! traces. No world and no trail belongs to it.
#![tactic(auto)]

mod counts;
mod top;

pub use counts::{Counts, LINE_LIMIT, LINES_LIMIT};
pub use top::recode_top;
