//! The controller's rows of the invariant: whatever it is given, and in every state that the facts allow, it keeps
//! all of them, and what it sends says what it should.
//!
//! A law, and no code. A file of `proofs/` is one input, or a part that several inputs share.
#![tactic(auto)]

mod rows;

pub use rows::control_rows_are_good;
