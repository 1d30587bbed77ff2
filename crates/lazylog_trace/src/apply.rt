//! A command applied to a world as events, and the texts that are printed meanwhile.
//!
//! The texts are collected, each with its newline; nothing is written here.

ghost use Rattle.std.specs.Prelude.{◌≡◌, ◌+◌, ◌^◌, ◌<◌, ◌≤◌, ◌++◌, [], ◌∷◌, IfOk, OnOk};
ghost use Rattle.lazy_msgs.specs.declared.input.WorldEvent.TheVariants.{Deliver};
ghost use Rattle.lazy_rules.specs.WorldRules.{refusal};
ghost use Rattle.trace_script.specs.RefusalTexts.{no_node_text};
ghost use Rattle.trace_script.specs.Spelling.{IsSayable};
ghost use Rattle.lazylog_trace.specs.Apply.{Advances, Applies, IsOfFew, action_events, action_texts, command_texts, deliveries, events_of, refusal_texts};
ghost use Rattle.script_streams.specs.Texts.{with_newline};

use crate::action::{Action, action_of};
use crate::show::{add_text, show_events, show_holders, show_message};
use lazy_core::World;
use lazy_msgs::{EventRefused, WorldEvent};
use plain_lists::Sequence;
use rec_id::TextList;
use std::alloc::{AllocError, Global};
use trace_script::{Command, NodeWord, print_no_node, print_refused};

/// Whether all events of a command were tried.
#[derive(Clone, Copy, Debug, PartialEq, Eq)]
pub enum Outcome {
    Through,
    /// One was refused as spent, and none behind it was tried.
    Spent,
}

/// One event; a refusal is printed.
#[tactic(auto, using(crate::proofs::AppliedEvents::events_applied))]
fn apply_event(
    alloc: Global,
    world: &mut World,
    event: &WorldEvent,
    texts: &mut TextList,
) -> Result<Outcome, AllocError>
    requires countable { world.old.events + 1 < 2 ^ 32 }
    ensures applied { IfOk result (Applies (event.now ∷ []) world.old world.new) }
    ensures prints { OnOk result (texts.new ≡ texts.old ++ refusal_texts (refusal world.old event.now)) }
    ensures advances { Advances 1 world.old world.new }
{
    match world.event(event) {
        Ok(()) => Ok(Outcome::Through),
        Err(EventRefused::Spent) => Ok(Outcome::Spent),
        Err(EventRefused::Memory) => Err(AllocError),
        Err(refused) => {
            let mut text = Sequence::new(alloc);
            print_refused(alloc, &refused, &mut text)?;
            add_text(texts, text)?;
            Ok(Outcome::Through)
        }
    }
}

/// One delivery; a refusal is passed over.
#[tactic(auto, using(crate::proofs::AppliedEvents::events_applied))]
fn apply_delivery(world: &mut World, message: u32) -> Result<Outcome, AllocError>
    requires countable { world.old.events + 1 < 2 ^ 32 }
    ensures applied { IfOk result (Applies (Deliver message ∷ []) world.old world.new) }
    ensures advances { Advances 1 world.old world.new }
{
    match world.event(&WorldEvent::Deliver(message)) {
        Err(EventRefused::Spent) => Ok(Outcome::Spent),
        Err(EventRefused::Memory) => Err(AllocError),
        _ => Ok(Outcome::Through),
    }
}

/// Delivers so many messages from `first` on, in order. Refusals are passed over, up to one as
/// spent.
fn apply_deliveries(world: &mut World, first: u32, count: u32) -> Result<Outcome, AllocError>
    requires countable { world.old.events + count < 2 ^ 32 }
    requires numbers { first + count ≤ 2 ^ 32 }
    ensures applied { IfOk result (Applies (deliveries first count) world.old world.new) }
    ensures advances { Advances count world.old world.new }
{
    for i in 0..count {
        match apply_delivery(world, first + i) {
            Ok(Outcome::Through) => {}
            Ok(Outcome::Spent) => return Ok(Outcome::Spent),
            Err(AllocError) => return Err(AllocError),
        }
    }
    Ok(Outcome::Through)
}

/// The refusal of a word whose number no node has.
fn refuse_word(alloc: Global, word: NodeWord, texts: &mut TextList) -> Result<(), AllocError>
    ensures { OnOk result (texts.new ≡ texts.old ++ with_newline (no_node_text word) ∷ []) }
{
    let mut text = Sequence::new(alloc);
    print_no_node(alloc, &word, &mut text)?;
    add_text(texts, text)
}

/// Does what a command does, and prints what it prints of itself.
fn act(
    alloc: Global,
    world: &mut World,
    action: Action,
    texts: &mut TextList,
) -> Result<Outcome, AllocError>
    requires countable { world.old.events + 128 < 2 ^ 31 }
    requires few { IsOfFew 128 action }
    ensures applied { IfOk result (Applies (action_events action) world.old world.new) }
    ensures prints { OnOk result (texts.new ≡ texts.old ++ action_texts world.old action) }
    ensures advances { Advances 128 world.old world.new }
{
    match action {
        Action::Event(event) => apply_event(alloc, world, &event, texts),
        Action::Deliveries(first, count) => apply_deliveries(world, first, count),
        Action::Nothing => Ok(Outcome::Through),
        Action::NoNode(word) => {
            refuse_word(alloc, word, texts)?;
            Ok(Outcome::Through)
        }
        Action::Holders(asked) => {
            show_holders(alloc, world, asked, texts)?;
            Ok(Outcome::Through)
        }
        Action::Message(number) => {
            show_message(alloc, world, number, texts)?;
            Ok(Outcome::Through)
        }
    }
}

/// Applies a command, and appends what is printed of it to `texts`: a refusal or what is shown,
/// and then what the history gained. Where there is no memory, some events may have happened.
pub fn apply(
    alloc: Global,
    world: &mut World,
    command: Command,
    texts: &mut TextList,
) -> Result<Outcome, AllocError>
    requires countable { world.old.events + 128 < 2 ^ 31 }
    requires sayable { IsSayable command }
    ensures applied { IfOk result (Applies (events_of command) world.old world.new) }
    ensures prints { OnOk result (texts.new ≡ texts.old ++ command_texts world.old command world.new) }
    ensures advances { Advances 128 world.old world.new }
{
    let before = world.history().len();
    let outcome = act(alloc, world, action_of(command), texts)?;
    show_events(alloc, &world.history()[before..], texts)?;
    Ok(outcome)
}
