//! The words by which scripts name nodes.

ghost use Rattle.std.specs.Prelude.{◌≡◌};
ghost use Rattle.trace_script.specs.Names.{word_of_node};
ghost use Rattle.trace_script.specs.Nodes.{node_of_word};

use view_config::{
    BOARD, CONTROLLER, FIRST_SEQ, FIRST_SHARD, MAX_CLIENTS, MAX_COPIES, MAX_SEQ, MAX_SHARDS,
    client_id, seq_id, shard_id,
};

/// What a word names: a node, by its role and its numbers, which may be ones that no node has.
#[derive(Clone, Copy, Debug, PartialEq, Eq)]
pub enum NodeWord {
    /// `c` and a number.
    Client(u32),
    /// `k`.
    Controller,
    /// `s` and a number; the spares come last.
    Seq(u32),
    /// `d`, the number of a shard, a dot, and which of its replicas.
    Shard(u32, u32),
}

impl NodeWord {
    /// The number of the node, `None` where no node has such numbers. Whether a log has the node is a
    /// matter of its shape.
    pub fn number(&self) -> Option<u32>
        ensures { result ≡ node_of_word self.now }
    {
        match self {
            NodeWord::Client(c) if *c < MAX_CLIENTS => Some(client_id(*c)),
            NodeWord::Controller => Some(CONTROLLER),
            NodeWord::Seq(i) if *i < MAX_SEQ => Some(seq_id(*i)),
            NodeWord::Shard(i, j) if *i < MAX_SHARDS && *j < MAX_COPIES => Some(shard_id(*i, *j)),
            NodeWord::Client(_) | NodeWord::Seq(_) | NodeWord::Shard(_, _) => None,
        }
    }

    /// The word of the node with this number, `None` where it is no node's.
    pub fn of(number: u32) -> Option<NodeWord>
        ensures { result ≡ word_of_node number }
    {
        if number < CONTROLLER {
            return Some(NodeWord::Client(number));
        }
        if number == CONTROLLER {
            return Some(NodeWord::Controller);
        }
        if number < FIRST_SHARD {
            return Some(NodeWord::Seq(number - FIRST_SEQ));
        }
        if number < BOARD {
            let place = number - FIRST_SHARD;
            return Some(NodeWord::Shard(place / MAX_COPIES, place % MAX_COPIES));
        }
        None
    }
}
