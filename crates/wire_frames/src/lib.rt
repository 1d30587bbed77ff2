//! Envelopes as bytes: whether an envelope has a frame in an edition, the frame itself, and the envelope
//! of a frame.
//!
//! The form of a frame stands in words with the messages; `specs/Readers.antt` says how bytes are read
//! from left to right, and with which offence they are refused. Nothing here sends or keeps a frame.
//! Its tests stand in the crate `worked_cases`, so that this one is proved once.
#![tactic(auto)]

mod laws;
mod lengths;
mod limits;
mod offence;
mod reading;
mod sizes;
mod writing;

pub use laws::{cut_or_more, marks_by_bit, one_form};
pub use limits::fits;
pub use offence::FrameError;
pub use reading::{decode, read_again};
pub use writing::encode;
