//! What is counted of a load.

ghost use Rattle.std.specs.Prelude.{◌≡◌, ◌<◌, ◌^◌, length, count_by, true, IfOk};
ghost use Rattle.list_facts.specs.Lists.{Each};
ghost use Rattle.lazy_rules.specs.Holders.{holders};
ghost use Rattle.lazy_rules.specs.Rows.{has_node};
ghost use Rattle.load_gen.specs.Counting.{HasLawfulLine, IsCountable, counts_of, is_acked, is_answer, is_invoke, is_rejected};

use crate::load::Load;
use lazy_core::{LineError, World};
use log_law::{Verdict, check};
use rec_id::Event;
use std::alloc::{AllocError, Global};

/// The counts of a load.
#[derive(Clone, Copy, Debug, PartialEq, Eq)]
pub struct Counts {
    /// Appends that were acknowledged.
    pub acked: u32,
    /// Reads that were answered.
    pub answered: u32,
    /// Events that were accepted.
    pub events: u32,
    /// Appends that began.
    pub invoked: u32,
    /// Holders whose line is lawful for the history.
    pub lawful: u32,
    /// Messages that were sent.
    pub messages: u32,
    /// Events that were refused.
    pub refused: u32,
    /// Appends that became no-ops.
    pub rejected: u32,
}

fn is_acked(event: &Event) -> bool
    ensures { result ≡ is_acked event.now }
{
    matches!(event, Event::Acked(_))
}

fn is_answer(event: &Event) -> bool
    ensures { result ≡ is_answer event.now }
{
    matches!(event, Event::Answer { .. })
}

fn is_invoke(event: &Event) -> bool
    ensures { result ≡ is_invoke event.now }
{
    matches!(event, Event::Invoke(..))
}

fn is_rejected(event: &Event) -> bool
    ensures { result ≡ is_rejected event.now }
{
    matches!(event, Event::Rejected(..))
}

fn acked(history: &[Event]) -> u32
    requires { length history.now < 2 ^ 32 }
    ensures { result ≡ count_by is_acked history.now }
{
    history.iter().filter(|event| is_acked(event)).count() as u32
}

fn answered(history: &[Event]) -> u32
    requires { length history.now < 2 ^ 32 }
    ensures { result ≡ count_by is_answer history.now }
{
    history.iter().filter(|event| is_answer(event)).count() as u32
}

fn invoked(history: &[Event]) -> u32
    requires { length history.now < 2 ^ 32 }
    ensures { result ≡ count_by is_invoke history.now }
{
    history.iter().filter(|event| is_invoke(event)).count() as u32
}

fn rejected(history: &[Event]) -> u32
    requires { length history.now < 2 ^ 32 }
    ensures { result ≡ count_by is_rejected history.now }
{
    history.iter().filter(|event| is_rejected(event)).count() as u32
}

/// Whether the line of a holder is lawful, which it is where nobody crashed. One that is lost isn't.
fn is_lawful(alloc: Global, world: &World, holder: u32) -> Result<bool, AllocError>
    requires holds { has_node (holders world.now) holder ≡ true }
    requires countable { IsCountable world.now }
    ensures { IfOk result (λ lawful. lawful ≡ true) }
{
    match world.line(holder) {
        Ok(line) => Ok(check(alloc, world.history(), &line)? == Verdict::Lawful),
        Err(LineError::Lost(_)) => Ok(false),
        Err(LineError::Memory) => Err(AllocError),
    }
}

/// How many of these, who are all the holders, have a lawful line.
fn lawful_among(alloc: Global, world: &World, nodes: &[u32]) -> Result<u32, AllocError>
    requires holders { nodes.now ≡ holders world.now }
    requires countable { IsCountable world.now }
    ensures { IfOk result (λ count. count ≡ length nodes.now) }
{
    let mut count = 0;
    for holder in nodes {
        if is_lawful(alloc, world, *holder)? {
            count += 1;
        }
    }
    Ok(count)
}

impl Load {
    /// What is counted so far. The line of each holder is checked against the whole history, and each is lawful.
    pub fn counts(&self, alloc: Global) -> Result<Counts, AllocError>
        ensures counts { IfOk result (λ counts. counts ≡ counts_of self.now) }
        ensures lawful { Each (HasLawfulLine self.now.world) (holders self.now.world) }
    {
        let world = self.world();
        let holders = world.holders()?;
        Ok(Counts {
            acked: acked(world.history()),
            answered: answered(world.history()),
            events: world.events(),
            invoked: invoked(world.history()),
            lawful: lawful_among(alloc, world, holders.as_slice())?,
            messages: world.sent(),
            refused: self.refused(),
            rejected: rejected(world.history()),
        })
    }
}
