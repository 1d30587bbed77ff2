//! Nodes that keep a diary: what each took and sent, and when. Afterwards the diaries say what was told and what the
//! log is.
//!
//! `node.rt` has the node with its diary, `feed.rt` its one step and the entry of it (`call.rt`: the node's own call;
//! `write.rt`: the entry; `refused.rt`: why there is none). `formed.rt` says when its diary is well formed.
//! `replaying.rt` has what the diaries of all nodes come to, each folded by itself (`fold.rt`) from its node's first
//! state (`first.rt`).
#![tactic(auto)]

mod call;
mod feed;
mod first;
mod fold;
mod formed;
mod node;
mod refused;
mod replaying;
mod write;

pub use first::first_state;
pub use formed::every_fed_diary_is_formed;
pub use lazy_core::Note;
pub use node::DiaryNode;
pub use refused::{FeedRefused, TooLate};
pub use replaying::replay;
