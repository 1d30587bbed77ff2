//! The controller: the one node that replaces others. It seals a view, takes what one survivor of it had,
//! flushes that to the shards, and starts the next view behind it; where another node is suspected
//! meanwhile, it begins again.
//!
//! It touches its own state and the outbox that it is handed. The rules that it follows are those of
//! `lazy_rules`; one file has the rule of one input.
#![tactic(auto)]

mod ask_view;
mod controller;
mod door;
mod flush;
mod flushed;
mod phase;
mod sealed;
mod sends;
mod stage;
mod started;
mod step;
mod suspect;
mod tick;

pub use controller::Controller;
pub use phase::CtlPhase;
