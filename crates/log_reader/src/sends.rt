//! What a reader sends.

ghost use Rattle.std.specs.Prelude.{◌≡◌, ◌++◌, [], ◌∷◌, IfOk};
ghost use Rattle.std.specs.Option.{option_to_list};
ghost use Rattle.lazy_msgs.specs.declared.msg.Msg.TheVariants.{Probe, Trim};
ghost use Rattle.lazy_rules.specs.ReaderRules.{fetch_msg, in_turn};
ghost use Rattle.lazy_rules.specs.Rows.{to_each};
ghost use Rattle.log_reader.specs.Rounds.{round_sends, turn_sends};

use crate::fetch::{Fetch, asked_from};
use lazy_msgs::{Msg, SendList};
use plain_lists::Sequence;
use rec_id::{Event, EventList};
use std::alloc::{AllocError, Global};
use view_config::Config;

/// A probe for the read of this number in this view, to each of the nodes.
pub(crate) fn probes(
    alloc: Global,
    nodes: &[u32],
    view: u32,
    read: u32,
) -> Result<SendList, AllocError>
    ensures { IfOk result (λ sends. sends ≡ to_each nodes.now (Probe view read)) }
{
    let mut sends = Sequence::new(alloc);
    for node in nodes {
        sends.push((*node, Msg::Probe { view, read }))?;
    }
    Ok(sends)
}

/// A trim with this number and floor, to each of the nodes.
pub(crate) fn trims(
    alloc: Global,
    nodes: &[u32],
    read: u32,
    floor: u32,
) -> Result<SendList, AllocError>
    ensures { IfOk result (λ sends. sends ≡ to_each nodes.now (Trim read floor)) }
{
    let mut sends = Sequence::new(alloc);
    for node in nodes {
        sends.push((*node, Msg::Trim { read, floor }))?;
    }
    Ok(sends)
}

/// What the fetch asks for, to each of the nodes.
pub(crate) fn fetches(alloc: Global, nodes: &[u32], fetch: &Fetch) -> Result<SendList, AllocError>
    ensures { IfOk result (λ sends. sends ≡ to_each nodes.now (fetch_msg fetch.now)) }
{
    let read = fetch.number;
    let from = asked_from(fetch.ask);
    let to = fetch.end;
    let mut sends = Sequence::new(alloc);
    for node in nodes {
        sends.push((*node, Msg::Fetch { read, from, to }))?;
    }
    Ok(sends)
}

/// The node whose turn it is.
fn in_turn(turn: u32, nodes: &[u32]) -> Option<u32>
    ensures { option_to_list result ≡ in_turn turn nodes.now }
{
    if nodes.is_empty() {
        return None;
    }
    Some(nodes[turn as usize % nodes.len()])
}

/// Appends what the fetch sends for a shard in this turn.
fn push_turn(
    sends: &mut SendList,
    fetch: &Fetch,
    turn: u32,
    shard: usize,
    nodes: &[u32],
) -> Result<(), AllocError>
    ensures { IfOk result (λ _. sends.new ≡ sends.old ++ turn_sends fetch.now turn shard nodes.now) }
{
    if !fetch.lacks(shard) {
        return Ok(());
    }
    let Some(node) = in_turn(turn, nodes) else {
        return Ok(());
    };
    let msg = Msg::Fetch {
        read: fetch.number,
        from: asked_from(fetch.ask),
        to: fetch.end,
    };
    sends.push((node, msg))
}

/// What the fetch sends for all shards in this turn: in turn 0 it asks the primaries.
pub(crate) fn round(
    alloc: Global,
    fetch: &Fetch,
    turn: u32,
    config: &Config,
) -> Result<SendList, AllocError>
    ensures { IfOk result (λ sends. sends ≡ round_sends fetch.now turn config.now) }
{
    let mut sends = Sequence::new(alloc);
    for shard in 0..config.shards.len() {
        push_turn(
            &mut sends,
            fetch,
            turn,
            shard,
            config.shards.at(shard).as_slice(),
        )?;
    }
    Ok(sends)
}

/// The one event of a step.
pub(crate) fn one_event(alloc: Global, event: Event) -> Result<EventList, AllocError>
    ensures { IfOk result (λ events. events ≡ event ∷ []) }
{
    let mut events = Sequence::new(alloc);
    events.push(event)?;
    Ok(events)
}
