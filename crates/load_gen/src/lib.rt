//! The load: a long run of a world whose events are drawn from a seed, and one line that counts what came of it.
//!
//! `schedule.rt` draws the steps and `nodes.rt` lists the nodes that they are drawn among; `load.rt` makes the
//! steps in a world, `counts.rt` counts what the world has then, and `summary_line.rt` prints the counts. The same
//! shape and seed give the same line.
#![tactic(auto)]

mod counts;
mod limits;
mod load;
mod load_step;
mod nodes;
mod schedule;
mod summary_line;

pub use counts::Counts;
pub use limits::{STEPS, SUSPICION_STEP};
pub use load::{Load, Outcome};
pub use load_step::LoadStep;
pub use schedule::LoadGen;
pub use summary_line::summary;
