//! What holds of every world, whatever its shape and whatever happened in it: the simple facts, of which none
//! needs to know how a log is bound. No code of a node stands below this crate.
//!
//! `specs/Turns.antt` says what an event comes to, one input at one node. `Forms`, `Members` and `MembersOf` say what
//! a world always has and who sends what to whom, `Sizes` and `SizesOf` how much each may be, and `Numbers`
//! which numbers are never spent.
//!
//! `proofs/Claims.antt` has the form of an induction over all events: what can be claimed of the state of
//! each role and of each message, and one case for each role. `proofs/Runs.antt` lifts the cases to every list of
//! events (`run_keeps`), and what was lifted may be known to the next claims; what speaks of several nodes at once goes
//! by turns of the world (`every_world`). `goes`, `sizes` and `counts` are three such claims, a file a role.
#![tactic(auto)]

mod fitting;
mod members;
mod numbers;
mod steps;

pub use fitting::{every_message_fits, no_message_is_turned_away};
pub use members::every_message_goes_where_it_is_due;
pub use numbers::no_number_is_spent;
pub use steps::every_event_is_one_step;
