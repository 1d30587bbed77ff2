//! A sequencing replica: it keeps records, or their identities, in the order in which they came, and as
//! leader of a view it binds them to positions.
//!
//! [`SeqNode`] touches nothing but its own state and the outbox that it is handed. `node.rt` has its
//! state, `step.rt` the way of an input to its row, and each row has a file, named by its input. What a
//! leader does in several rows has files of its own: `batch.rt` sends batches, `begin.rt`, `pass.rt`,
//! `finish.rt` and `force.rt` are the parts of that name, and `stable.rt` tells what is bound. A row
//! makes all that it sends before it changes anything, so that a refused step leaves all as it was.
#![tactic(auto)]

mod append;
mod batch;
mod begin;
mod door;
mod finish;
mod force;
mod new_view;
mod node;
mod order;
mod ordered;
mod pass;
mod placed;
mod probe;
mod roles;
mod seal;
mod stable;
mod step;
mod tick;

pub use node::SeqNode;
