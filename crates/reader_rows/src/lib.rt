//! The rows of the half of a client that reads and trims keep the invariant: what a client is told of the log is true.
//!
//! A law, and no code. `proofs/Stepping.antt` says what a step of such a client has to show, `proofs/Asking.antt` what is
//! sent. A file an input follows, named by it; `Answering`, `Deciding` and `EndingTrims` are parts that several have.
#![tactic(auto)]

mod rows;

pub use rows::reader_rows_are_good;
