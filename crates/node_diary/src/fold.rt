//! A diary folded by itself: the state that it leads to, and what its steps told, each under its key.

ghost use Rattle.std.specs.Prelude.{◌≡◌, ◌==◌, ◌++◌, find, IfOk, OnOk, option_copied};
ghost use Rattle.lazy_core.specs.NodeStep.{node_step};
ghost use Rattle.node_diary.specs.declared.fold.Telling.{Telling};
ghost use Rattle.lazy_msgs.specs.declared.diary.Diary.{Diary};
ghost use Rattle.node_diary.specs.Folding.{found_state, found_tellings, state_after, telling_here, tellings_after};
ghost use Rattle.node_diary.specs.States.{HasNode};
ghost use Rattle.node_diary.specs.Taken.{IsTaken};

use crate::first::first_state;
use diary_merge::{finds_none, key_at};
use lazy_core::NodeState;
use lazy_msgs::{Diary, DiaryEntry, DiaryList, Input, Outbox};
use rec_id::EventList;
use std::alloc::{AllocError, Global};
use view_config::Shape;

/// What a step told, under its key.
#[derive(Drop)]
pub(crate) struct Telling {
    pub(crate) key: u64,
    pub(crate) events: EventList,
}

/// One step, with room for all that it may send; what it told. A step that its entry sent has room enough.
fn step(alloc: Global, state: &mut NodeState, input: &Input) -> Result<EventList, AllocError>
    ensures { IfOk result (IsTaken (node_step state.old input.now) state.new) }
{
    let mut out = Outbox::new(alloc, u32::MAX, u64::MAX);
    if state.step(input, &mut out).is_err() {
        return Err(AllocError);
    }
    let (_, events) = out.into_lists();
    Ok(events)
}

/// Goes on from this state over an entry of this node.
fn fold_entry(
    alloc: Global,
    node: u32,
    entry: &DiaryEntry,
    state: &mut NodeState,
    tellings: &mut Vec<Telling>,
) -> Result<(), AllocError>
    ensures state { OnOk result (state.new ≡ (node_step state.old entry.now.input).next) }
    ensures told { OnOk result (tellings.new.items ≡ tellings.old.items ++ telling_here node state.old entry.now) }
{
    let events = step(alloc, state, &entry.input)?;
    if finds_none(&entry.input) {
        return Ok(());
    }
    tellings.push(Telling {
        key: key_at(entry.time, node),
        events,
    })?;
    Ok(())
}

/// Goes on from this state over entries of this node.
fn fold_entries(
    alloc: Global,
    node: u32,
    entries: &[DiaryEntry],
    state: &mut NodeState,
    tellings: &mut Vec<Telling>,
) -> Result<(), AllocError>
    ensures state { OnOk result (state.new ≡ state_after state.old entries.now) }
    ensures told { OnOk result (tellings.new.items ≡ tellings.old.items ++ tellings_after node state.old entries.now) }
{
    for entry in entries {
        fold_entry(alloc, node, entry, state, tellings)?;
    }
    Ok(())
}

/// The diary of this node, `None` where there is none.
fn diary_of(diaries: &[Diary], node: u32) -> Option<&Diary>
    ensures { option_copied result ≡ find (λ (diary : Diary). diary.node == node) diaries.now }
{
    for diary in diaries {
        if diary.node == node {
            return Some(diary);
        }
    }
    None
}

/// The state that the diary of this node leads to from its first state; where it has none, that state.
pub(crate) fn fold(
    alloc: Global,
    shape: &Shape,
    diaries: &DiaryList,
    node: u32,
    tellings: &mut Vec<Telling>,
) -> Result<NodeState, AllocError>
    requires { HasNode shape.now node }
    ensures state { IfOk result (λ state. state ≡ found_state shape.now diaries.now node) }
    ensures told { OnOk result (tellings.new.items ≡ tellings.old.items ++ found_tellings shape.now diaries.now node) }
{
    let mut state = first_state(alloc, shape, node)?;
    if let Some(diary) = diary_of(diaries.as_slice(), node) {
        fold_entries(alloc, node, diary.entries.as_slice(), &mut state, tellings)?;
    }
    Ok(state)
}
