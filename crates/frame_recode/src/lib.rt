//! Old frames brought over: a line of text that is a frame of edition One in hexadecimal becomes the
//! frame of edition Two of the same envelope.
//!
//! Here is one line at a time, without its newline, and what is written for it. No stream is read.
#![tactic(auto)]

mod hexadecimal;
mod laws;
mod recode;
mod refused_text;
mod widen;

pub use laws::{frames_are_brought_over, lines_are_hexadecimal};
pub use recode::{RecodeError, Recoded, recode_line};
pub use widen::bring_over;
