//! The lists of nodes that events are drawn among, each by the nodes' numbers.

ghost use Rattle.std.specs.Prelude.{◌≡◌, ◌*◌, ◌<◌, ◌≤◌, length, slice_index};
ghost use Rattle.load_gen.specs.Nodes.{all_nodes, shard_replicas};

use view_config::{CONTROLLER, MAX_COPIES, MAX_SHARDS, Shape, client_id, seq_id, shard_id};

/// How many shard replicas there are.
pub(crate) fn shard_count(shape: &Shape) -> u32
    ensures count { result ≡ length (shard_replicas shape.now) }
    ensures some { 1 ≤ result }
    ensures few { result ≤ MAX_SHARDS * MAX_COPIES }
{
    shape.shards * shape.copies
}

/// How many nodes there are.
pub(crate) fn node_count(shape: &Shape) -> u32
    ensures { result ≡ length (all_nodes shape.now) }
{
    shape.clients + 1 + shape.seq + shape.spares + shard_count(shape)
}

/// The number of shard replica `k`, counted from 0.
pub(crate) fn shard_number(shape: &Shape, k: u32) -> u32
    requires { k < length (shard_replicas shape.now) }
    ensures { result ≡ slice_index (shard_replicas shape.now) k }
{
    shard_id(k / shape.copies, k % shape.copies)
}

/// The number of node `n`, counted from 0.
pub(crate) fn node_number(shape: &Shape, n: u32) -> u32
    requires { n < length (all_nodes shape.now) }
    ensures { result ≡ slice_index (all_nodes shape.now) n }
{
    if n < shape.clients {
        return client_id(n);
    }
    if n == shape.clients {
        return CONTROLLER;
    }
    let behind = n - shape.clients - 1;
    let seqs = shape.seq + shape.spares;
    if behind < seqs {
        return seq_id(behind);
    }
    shard_number(shape, behind - seqs)
}
