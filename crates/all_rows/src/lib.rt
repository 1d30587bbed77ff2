//! What the log promises, without a premise: every row of every role keeps the invariant, and so whatever is said of
//! worlds where it is kept holds after every list of events.
//!
//! Laws, and no code. The rows are proved a crate a role (`seq_rows`, `shard_rows`, `client_rows`, `reader_rows`,
//! `control_rows`), and the invariant is stated in `log_facts`. `proofs/Rows.antt` puts them together, and a file a
//! law follows.
#![tactic(auto)]

mod every_row;
mod frames;
mod promises;
mod records;
mod safety;

pub use every_row::every_row_is_good;
pub use frames::every_message_has_a_frame;
pub use promises::every_promise_is_kept;
pub use records::every_told_record_was_appended;
pub use safety::every_line_is_lawful;
