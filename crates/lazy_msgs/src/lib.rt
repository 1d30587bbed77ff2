//! What nodes send each other and what happens to them: messages, inputs, the events of a world,
//! the refusals of the nodes' calls, the outbox in which a step puts what it sends and tells, and the
//! diary in which a node keeps its steps.
//!
//! No rule of the protocol is decided here. `specs/Step.antt` has the words in which every node
//! says that it took the step that the rules give.
#![tactic(auto)]

mod diary;
mod input;
mod limits;
mod msg;
mod outbox;
mod refused;
mod weights;

pub use diary::{Diary, DiaryEntry, DiaryList, EntryList};
pub use input::{Input, WorldEvent, WorldEvents};
pub use limits::{BATCH_LIMIT, PENDING_LIMIT, TIME_LIMIT};
pub use msg::{Envelope, Msg};
pub use outbox::{Outbox, SendList};
pub use refused::{
    BeginRefused, EventRefused, OutboxRefused, PostRefused, StepRefused, SuspectRefused,
    TrimRefused,
};
pub use weights::{message_weight, weight};
