//! The numbers of messages among all that were sent, in the order of their steps.

ghost use Rattle.std.specs.Prelude.{◌≡◌, ◌≢◌, ◌+◌, ◌<◌, ◌^◌, ◌↔◌, length, IsTrue, IfOk, IfNone, IfSome, IsSomeAnd, Some, slice_get};
ghost use Rattle.list_facts.specs.Lists.{Each, In};
ghost use Rattle.lazy_msgs.specs.declared.limits.TheConstants.{TIME_LIMIT};
ghost use Rattle.lazy_msgs.specs.declared.msg.Msg.TheVariants.{Claim};
ghost use Rattle.diary_laws.specs.Merges.{IsFirstNumber, Ranked, sent_by};
ghost use Rattle.diary_merge.specs.declared.place.Place.{Place};
ghost use Rattle.diary_merge.specs.declared.place.TheConstants.{NODES};
ghost use Rattle.diary_merge.specs.Acts.{AreNumbered, IsThere, acts_at, key_at, starts_from};
ghost use Rattle.diary_merge.specs.Numbering.{ClaimsThere, IsClaimNumber, IsFirstPlace, IsKeyed};

use crate::place::{NODES, Place, entry_at, key_at};
use crate::same::Same;
use lazy_msgs::{DiaryList, Envelope, Msg, TIME_LIMIT};
use std::alloc::{AllocError, Global};

/// It is this message to this node.
fn is_send(send: &(u32, Msg), to: u32, msg: &Msg) -> bool
    ensures { IsTrue result ↔ (send.now ≡ (to, msg.now)) }
{
    if send.0 != to {
        return false;
    }
    send.1.same(msg)
}

/// The first place of this message to this node among sends.
fn place_of_send(sends: &[(u32, Msg)], to: u32, msg: &Msg) -> Option<usize>
    ensures some { IfSome result (IsFirstPlace (λ send. send ≡ (to, msg.now)) sends.now) }
    ensures none { IfNone result (Each (λ send. send ≢ (to, msg.now)) sends.now) }
{
    for at in 0..sends.len() {
        if is_send(&sends[at], to, msg) {
            return Some(at);
        }
    }
    None
}

/// The message claims this much.
fn is_claim(msg: &Msg, stable: u32) -> bool
    ensures { IsTrue result ↔ (msg.now ≡ Claim stable) }
{
    match msg {
        Msg::Claim { stable: claimed } => *claimed == stable,
        _ => false,
    }
}

/// The first place of a Claim of this much among sends.
fn place_of_claim(sends: &[(u32, Msg)], stable: u32) -> Option<usize>
    ensures some { IfSome result (IsFirstPlace (λ send. send.1 ≡ Claim stable) sends.now) }
    ensures none { IfNone result (Each (λ send. send.1 ≢ Claim stable) sends.now) }
{
    for at in 0..sends.len() {
        if is_claim(&sends[at].1, stable) {
            return Some(at);
        }
    }
    None
}

/// How many messages were sent before each of these places.
pub(crate) fn starts_of(
    alloc: Global,
    diaries: &DiaryList,
    places: &[Place],
) -> Result<Vec<usize>, AllocError>
    requires { Each (IsThere diaries.now) places.now }
    ensures { IfOk result (λ starts. starts.items ≡ starts_from 0 (acts_at diaries.now places.now)) }
{
    let mut starts = Vec::new(alloc);
    let mut sent = 0usize;
    for i in 0..places.len() {
        starts.push(sent)?;
        let (_, entry) = entry_at(diaries, places, i);
        sent = sent.saturating_add(entry.sends.len());
    }
    Ok(starts)
}

/// Where the step of this node at this time stands, by its key.
fn place_of_step(places: &[Place], node: u32, time: u64) -> Option<usize>
    ensures within { IfSome result (λ at. at < length places.now) }
    ensures some { IfSome result (IsKeyed places.now node time) }
    ensures none { IfNone result (Ranked (λ (p q : Place). p.key < q.key) places.now → time < TIME_LIMIT → node < NODES → Each (λ (place : Place). place.key ≢ key_at time node) places.now) }
{
    if time >= TIME_LIMIT || u64::from(node) >= NODES {
        return None;
    }
    match places.binary_search_by_key(&key_at(time, node), |place| place.key) {
        Ok(at) => Some(at),
        Err(_) => None,
    }
}

/// How many messages were sent before the step at this place.
fn start_at(starts: &[usize], i: usize) -> usize
    requires { i < length starts.now }
    ensures { slice_get starts.now i ≡ Some result }
{
    starts[i]
}

/// The number of the message that stands at this place among the sends of a step, before which so many were sent.
fn number_at(start: usize, at: usize) -> Option<u32>
    ensures { start + at + 1 < 2 ^ 32 → result ≡ Some (start + at + 1) }
{
    u32::try_from(start.saturating_add(at).saturating_add(1)).ok()
}

/// The first number of this envelope, `None` where it wasn't sent.
pub(crate) fn number_of(
    diaries: &DiaryList,
    places: &[Place],
    starts: &[usize],
    envelope: &Envelope,
) -> Option<u32>
    requires there { Each (IsThere diaries.now) places.now }
    requires counted { length starts.now ≡ length places.now }
    ensures { AreNumbered diaries.now places.now starts.now → In envelope.now (sent_by (acts_at diaries.now places.now)) → IsSomeAnd result (IsFirstNumber (sent_by (acts_at diaries.now places.now)) envelope.now) }
{
    let i = place_of_step(places, envelope.from, envelope.time)?;
    let (_, entry) = entry_at(diaries, places, i);
    let at = place_of_send(entry.sends.as_slice(), envelope.to, &envelope.msg)?;
    number_at(start_at(starts, i), at)
}

/// The first number of a Claim of this much that this node sent at this time, `None` where it sent none.
pub(crate) fn claim_number(
    diaries: &DiaryList,
    places: &[Place],
    starts: &[usize],
    stable: u32,
    time: u64,
    node: u32,
) -> Option<u32>
    requires there { Each (IsThere diaries.now) places.now }
    requires counted { length starts.now ≡ length places.now }
    ensures { AreNumbered diaries.now places.now starts.now → ClaimsThere (sent_by (acts_at diaries.now places.now)) stable time node → IsSomeAnd result (IsClaimNumber (sent_by (acts_at diaries.now places.now)) stable time node) }
{
    let i = place_of_step(places, node, time)?;
    let (_, entry) = entry_at(diaries, places, i);
    let at = place_of_claim(entry.sends.as_slice(), stable)?;
    number_at(start_at(starts, i), at)
}
