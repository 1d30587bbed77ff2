//! What holds in every world of the replicated log, in both modes and across every view: the invariant by which
//! the line of each holder is lawful.
//!
//! `specs/Ghosts.antt` has what nothing stores and the facts speak of; `Parts`, `Signs`, `Past` and `Finality` are
//! the words that they use. `Said` tells what each message says from when it is sent on, kind by kind; `facts/` has
//! what the states of nodes say of each other, and `Agreed` has them all. `Growth` is what no step takes back, and
//! `Good` what is to be shown of one step of one node.
//!
//! No row is proved here. `proofs/` has the first world, that growth keeps what messages say, the induction over all
//! events, and what follows from the facts: the law (`lines/`) and what is promised of replicas (`promises/`).
//! `docs/INVARIANT.md` tells all of this in prose.
#![tactic(auto)]

mod safety;

pub use safety::{good_rows_keep_lines_lawful, good_rows_keep_promises};
