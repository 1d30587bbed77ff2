//! The world of all events: the nodes of a log, the messages between them, and the history of the clients.
//! Each event is one step of one node, or is refused and changes nothing.
//!
//! `node_state.rt` joins the five kinds of node in one, and `client_step.rt` the two halves of a client;
//! `node_call.rt` is what a node does in an event, where it may refuse. `snapshot.rt` has the states of all nodes,
//! each at its place (`places.rt`), `holders.rt` and `line.rt` what the log is among them. `ledger.rt` has what
//! was sent and told. `nodes.rt` holds both: `turns.rt` finds out whose step an event is, what that node is given
//! and why it may not be, and `event.rt` makes the step. `world.rt` says which of these are worlds. No file but
//! `client_step.rt` names a message, Claims aside, which no node takes.
#![tactic(auto)]

mod client_step;
mod event;
mod first_states;
mod holders;
mod ledger;
mod line;
mod node_call;
mod node_state;
mod nodes;
mod note;
mod peek;
mod places;
mod refused;
mod snapshot;
mod trail;
mod turns;
mod world;

pub use lazy_msgs::{Diary, DiaryEntry, DiaryList, EntryList};
pub use line::LineError;
pub use node_state::{NodeState, StateList};
pub use note::Note;
pub use snapshot::Snapshot;
pub use trail::{HolderLine, HolderLines, Trail};
pub use world::World;
