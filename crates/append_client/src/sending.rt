//! What a client sends for an append: its data to its shard, and its record to the sequencing
//! replicas, in each case to those that haven't acknowledged it.

ghost use Rattle.std.specs.Prelude.{◌≡◌, ◌≤◌, ◌++◌, map, filter, not, IfOk, OnOk};
ghost use Rattle.lazy_msgs.specs.declared.msg.Msg.TheVariants.{Append, Put};
ghost use Rattle.lazy_rules.specs.Rows.{has_node};
ghost use Rattle.lazy_rules.specs.ClientRules.{carried, data_nodes, homes_of, sending};
ghost use Rattle.append_client.specs.Sender.{sender};

use crate::nodes::has_node;
use lazy_msgs::{Msg, SendList};
use rec_id::{Bytes, RecordId, shard_of};
use std::alloc::AllocError;
use view_config::{Config, Mode, Shape};

/// The replicas of the shard that keeps the record's data.
fn homes<'a>(shape: &Shape, config: &'a Config, id: RecordId) -> &'a [u32]
    ensures { result.now ≡ homes_of (sender shape.now config.now id.client) id }
{
    let shard = shard_of(id, shape.shards) as usize;
    if shard < config.shards.len() {
        config.shards.at(shard).as_slice()
    } else {
        &[]
    }
}

/// The node is a replica of the shard that keeps the record's data.
pub(crate) fn is_home(shape: &Shape, config: &Config, id: RecordId, node: u32) -> bool
    ensures { result ≡ has_node (homes_of (sender shape.now config.now id.client) id) node }
{
    has_node(homes(shape, config, id), node)
}

/// The nodes that the record's data goes to by itself.
pub(crate) fn data_nodes<'a>(shape: &Shape, config: &'a Config, id: RecordId) -> &'a [u32]
    ensures { result.now ≡ data_nodes shape.now.mode (homes_of (sender shape.now config.now id.client) id) }
{
    match shape.mode {
        Mode::M => &[],
        Mode::St => homes(shape, config, id),
    }
}

/// Puts the data behind `sends`, to each of the nodes that hasn't acknowledged.
fn put_data(
    sends: &mut SendList,
    id: RecordId,
    bytes: &Bytes,
    nodes: &[u32],
    acked: &[u32],
) -> Result<(), AllocError>
    ensures { OnOk result (sends.new ≡ sends.old ++ map (λ node. (node, Put id bytes.now)) (filter (λ node. not (has_node acked.now node)) nodes.now)) }
{
    for node in nodes {
        if !has_node(acked, *node) {
            let bytes = bytes.clone()?;
            sends.push((*node, Msg::Put { id, bytes }))?;
        }
    }
    Ok(())
}

/// The data that goes through the sequencing replicas.
fn carried(mode: Mode, bytes: &Bytes) -> Result<Option<Bytes>, AllocError>
    ensures { IfOk result (λ made. made ≡ carried mode bytes.now) }
{
    match mode {
        Mode::M => Ok(Some(bytes.clone()?)),
        Mode::St => Ok(None),
    }
}

/// Puts the record behind `sends`, to each of the nodes that hasn't acknowledged.
fn put_record(
    sends: &mut SendList,
    mode: Mode,
    view: u32,
    id: RecordId,
    bytes: &Bytes,
    nodes: &[u32],
    acked: &[u32],
) -> Result<(), AllocError>
    ensures { OnOk result (sends.new ≡ sends.old ++ map (λ node. (node, Append view id (carried mode bytes.now))) (filter (λ node. not (has_node acked.now node)) nodes.now)) }
{
    for node in nodes {
        if !has_node(acked, *node) {
            let bytes = carried(mode, bytes)?;
            sends.push((*node, Msg::Append { view, id, bytes }))?;
        }
    }
    Ok(())
}

/// Puts behind `sends` what is sent for an append that these nodes acknowledged.
pub(crate) fn put_sending(
    sends: &mut SendList,
    shape: &Shape,
    config: &Config,
    id: RecordId,
    bytes: &Bytes,
    acked: &[u32],
) -> Result<(), AllocError>
    ensures { OnOk result (sends.new ≡ sends.old ++ sending (sender shape.now config.now id.client) (record { number = id.number; bytes = bytes.now; acked = acked.now })) }
{
    put_data(sends, id, bytes, data_nodes(shape, config, id), acked)?;
    put_record(
        sends,
        shape.mode,
        config.view,
        id,
        bytes,
        config.seq.as_slice(),
        acked,
    )
}
