//! The numbers of the nodes: clients first, then the controller, the sequencing replicas and the
//! shard replicas. The board has a number too, though it is an addressee and no node.

ghost use Rattle.std.specs.Prelude.{◌≡◌, ◌+◌, ◌*◌, ◌<◌};
ghost use Rattle.view_config.specs.Nodes.{seq_id, shard_id};

use crate::limits::{MAX_CLIENTS, MAX_COPIES, MAX_SEQ, MAX_SHARDS};

/// The number of the controller, behind those of the clients. The state that it takes at a change of
/// view is a holder of the log under this number.
pub const CONTROLLER: u32 = MAX_CLIENTS;

/// The number of the first sequencing replica.
pub const FIRST_SEQ: u32 = CONTROLLER + 1;

/// The number of the first replica of the first shard. Each shard has the numbers of four replicas,
/// however many it has.
pub const FIRST_SHARD: u32 = FIRST_SEQ + MAX_SEQ;

/// The number of the board, behind those of all nodes.
pub const BOARD: u32 = FIRST_SHARD + MAX_SHARDS * MAX_COPIES;

/// The greatest number of a node.
pub const MAX_NODE: u32 = BOARD - 1;

/// A node by its role.
#[derive(Clone, Copy, Debug, PartialEq, Eq)]
pub enum Node {
    Client(u32),
    Controller,
    /// A sequencing replica; the spares come last.
    Seq(u32),
    /// A shard, and which of its replicas.
    Shard(u32, u32),
}

/// The number of client `c`.
pub fn client_id(c: u32) -> u32
    requires { c < MAX_CLIENTS }
    ensures { result ≡ c }
{
    c
}

/// The number of sequencing replica `i`.
pub fn seq_id(i: u32) -> u32
    requires { i < MAX_SEQ }
    ensures { result ≡ seq_id i }
{
    FIRST_SEQ + i
}

/// The number of replica `j` of shard `i`.
pub fn shard_id(i: u32, j: u32) -> u32
    requires shard { i < MAX_SHARDS }
    requires copy { j < MAX_COPIES }
    ensures { result ≡ shard_id i j }
{
    FIRST_SHARD + MAX_COPIES * i + j
}
