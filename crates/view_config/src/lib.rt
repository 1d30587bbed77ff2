//! The shape of a log (how many nodes of each role, in which mode and edition), the numbers of its
//! nodes, and the configurations that its views have.
//!
//! Nothing here changes or sends anything. `specs/` has the same in words for contracts.
#![tactic(auto)]

mod config;
mod edition;
mod limits;
mod nodes;
mod role;
mod shape;
mod without;

pub use config::{Config, NodeList, ShardList};
pub use edition::{Edition, Mode};
pub use limits::{
    LINE_LIMIT_TWO, MAX_CLIENTS, MAX_COPIES, MAX_SEQ, MAX_SHARDS, RECORD_LIMIT_TWO, WINDOW_ONE,
    WINDOW_TWO,
};
pub use nodes::{
    BOARD, CONTROLLER, FIRST_SEQ, FIRST_SHARD, MAX_NODE, Node, client_id, seq_id, shard_id,
};
pub use role::Role;
pub use shape::Shape;
pub use without::ConfigError;
