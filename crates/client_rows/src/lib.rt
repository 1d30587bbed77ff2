//! The rows of the half of a client that appends keep the invariant: what a client is told of its appends is true.
//!
//! A law, and no code. `proofs/Stepping.antt` says what a step of such a client has to show; a file an input follows,
//! named by it, and `proofs/Sending.antt` has what is sent.
#![tactic(auto)]

mod rows;

pub use rows::client_rows_are_good;
