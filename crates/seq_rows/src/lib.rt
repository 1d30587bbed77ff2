//! The rows of sequencing replicas keep the invariant: what a replica takes, acknowledges, binds and tells of reads is
//! as the facts say, in its own view be it current or closed.
//!
//! A law, and no code. `proofs/GoingOn.antt` says how the log may go on at one replica, `Lifting` that all messages and
//! notes go on being said, and `Stepping` what a step has to show; `Composing` puts parts of a row together. A file an
//! input follows, named by it, and `leading/` has the parts of a leader's rows.
#![tactic(auto)]

mod rows;

pub use rows::seq_rows_are_good;
