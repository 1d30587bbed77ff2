//! What a client is told that looks up an order at the sender of a Claim.

ghost use Rattle.std.specs.Prelude.{◌≡◌, ◌≢◌, ◌-◌, None, Some, IfOk, IfErr, OnOk, slice_range};
ghost use Rattle.view_config.specs.Shape.{node_of};
ghost use Rattle.lazy_rules.specs.WorldRules.{ids_at, ids_in, message_at, peek_refused, range_refused};
ghost use Rattle.lazy_core.specs.Peeking.{IsGiven};

use crate::nodes::Nodes;
use lazy_msgs::{EventRefused, Input, Msg};
use plain_lists::Sequence;
use rec_id::{IdList, READ_LIMIT};
use shard_store::ShardStore;
use std::alloc::{AllocError, Global};
use view_config::FIRST_SHARD;

/// Why a look at the places `[from, to)` of a claim that reaches `stable` is refused, `None` where it isn't.
fn range_refused(from: u32, to: u32, stable: u32) -> Option<EventRefused>
    ensures { result ≡ range_refused from to stable }
{
    if to < from {
        return Some(EventRefused::Backward);
    }
    if to - from > READ_LIMIT {
        return Some(EventRefused::Wide);
    }
    if to > stable {
        return Some(EventRefused::NotYet(stable));
    }
    None
}

/// The identities of the places `[from, to)`, as far as the order goes.
fn ids_in(alloc: Global, store: &ShardStore, from: u32, to: u32) -> Result<IdList, AllocError>
    ensures { IfOk result (λ ids. ids ≡ ids_in (slice_range store.now.order from to)) }
{
    let mut ids = Sequence::new(alloc);
    for place in from..to.min(store.len()) {
        ids.push(store.cell(place).id)?;
    }
    Ok(ids)
}

impl Nodes {
    /// The identities that a shard replica has in its order in `[from, to)`.
    fn ids_at(&self, replica: u32, from: u32, to: u32) -> Result<IdList, AllocError>
        ensures { IfOk result (λ ids. ids ≡ ids_at self.now from to (node_of self.now.shape replica)) }
    {
        let alloc = self.snapshot.allocator();
        match self.snapshot.store(replica) {
            Some(store) => ids_in(alloc, store, from, to),
            None => Ok(Sequence::new(alloc)),
        }
    }

    /// What client `c` is given that looks up the places `[from, to)` by message `k`.
    pub(crate) fn peeked(&self, c: u32, k: u32, from: u32, to: u32) -> Result<Input, EventRefused>
        ensures given { IfOk result (IsGiven self.now from to (message_at self.now k)) }
        ensures allowed { OnOk result (peek_refused self.now c k from to (message_at self.now k) ≡ None) }
        ensures refused { IfErr result (λ e. e ≢ EventRefused.Memory → peek_refused self.now c k from to (message_at self.now k) ≡ Some e) }
        ensures unspent { IfErr result (λ e. e ≢ EventRefused.Spent) }
    {
        let Some(envelope) = self.message(k) else {
            return Err(EventRefused::NoMessage(k));
        };
        let Msg::Claim { stable } = &envelope.msg else {
            return Err(EventRefused::NotClaim(k));
        };
        if self.snapshot.is_crashed(c) {
            return Err(EventRefused::Crashed(c));
        }
        if let Some(refused) = range_refused(from, to, *stable) {
            return Err(refused);
        }
        Ok(Input::Peek {
            stable: *stable,
            time: envelope.time,
            replica: envelope.from.saturating_sub(FIRST_SHARD),
            from,
            ids: self.ids_at(envelope.from, from, to)?,
        })
    }
}
