//! The schedule: which event each step of a load makes, by the words of a generator.

ghost use Rattle.std.specs.Prelude.{◌≡◌, ◌/◌, ◌%◌, length, decimal, IfOk, OnErr};
ghost use Rattle.rec_id.specs.declared.event.Ask.TheVariants.{Tail};
ghost use Rattle.lazy_msgs.specs.declared.input.WorldEvent.TheVariants.{Ask as AskEvent, Post};
ghost use Rattle.load_gen.specs.Schedule.{any_delivery, drawn_step, first_generator, late_delivery, next_step, other_event, suspicion};

use crate::limits::{LATE, STEPS, SUSPICION_STEP, TAILS};
use crate::load_step::LoadStep;
use crate::nodes::{node_count, node_number, shard_count, shard_number};
use lazy_core::World;
use lazy_msgs::WorldEvent;
use rand_core::SeedableRng;
use rand_core::utils::NextWord;
use rand_pcg::Pcg32;
use rec_id::{Ask, Bytes};
use std::alloc::{AllocError, Global};
use std::marker::Model;
use view_config::{Shape, seq_id};

/// The generator of a load's steps: how many were made, and the words that the next ones draw.
#[derive(Drop)]
pub struct LoadGen {
    steps: u32,
    words: Pcg32,
}

impl Model for LoadGen {
    ghost use Rattle.std.specs.Prelude.{◌≤◌};
    ghost use Rattle.load_gen.specs.Schedule.{Generator};
    ghost use Rattle.load_gen.specs.declared.limits.TheConstants.{STEPS};

    ghost Value = { Generator };

    ghost view = { λ a. record { steps = a.steps; words = a.words } };

    ghost invariant = { λ a. a.steps ≤ STEPS };
}

/// The delivery of one of the latest messages, where one was sent.
fn late_delivery(sent: u32, b: u32) -> Option<WorldEvent>
    ensures { result ≡ late_delivery sent b }
{
    if sent == 0 {
        return None;
    }
    Some(WorldEvent::Deliver(sent - b % sent.min(LATE)))
}

/// The delivery of any message, where one was sent.
fn any_delivery(sent: u32, b: u32) -> Option<WorldEvent>
    ensures { result ≡ any_delivery sent b }
{
    if sent == 0 {
        return None;
    }
    Some(WorldEvent::Deliver(1 + b % sent))
}

/// An append of the step's number, by some client.
fn post(alloc: Global, shape: &Shape, step: u32, b: u32) -> Result<WorldEvent, AllocError>
    ensures { IfOk result (λ event. event ≡ Post (b % shape.now.clients) (decimal step)) }
{
    let text = format!(in alloc; "{step}")?;
    let bytes = Bytes::copy(alloc, text.as_bytes())?;
    Ok(WorldEvent::Post(b % shape.clients, bytes))
}

/// A read of the tail, by some client.
fn tail(shape: &Shape, b: u32) -> WorldEvent
    ensures { result ≡ AskEvent (b % shape.now.clients) (Tail (b / shape.now.clients % TAILS)) }
{
    let from = b / shape.clients % TAILS;
    WorldEvent::Ask(b % shape.clients, Ask::Tail { from })
}

/// The event that a word draws which isn't a post, by the word's remainder `a` and its quotient `b` at 16.
fn other_event(shape: &Shape, sent: u32, a: u32, b: u32) -> Option<WorldEvent>
    ensures { result ≡ other_event shape.now sent a b }
{
    if a <= 11 {
        return late_delivery(sent, b);
    }
    if a == 12 {
        return Some(WorldEvent::Tick(node_number(shape, b % node_count(shape))));
    }
    if a == 13 {
        return Some(WorldEvent::Grace(shard_number(shape, b % shard_count(shape))));
    }
    if a == 14 {
        return Some(tail(shape, b));
    }
    any_delivery(sent, b)
}

/// The step that a word draws.
fn drawn_step(
    alloc: Global,
    shape: &Shape,
    sent: u32,
    step: u32,
    word: u32,
) -> Result<LoadStep, AllocError>
    ensures { IfOk result (λ made. made ≡ drawn_step shape.now sent step word) }
{
    let a = word % 16;
    let b = word / 16;
    if a <= 2 {
        return Ok(LoadStep::Make(post(alloc, shape, step, b)?));
    }
    match other_event(shape, sent, a, b) {
        Some(event) => Ok(LoadStep::Make(event)),
        None => Ok(LoadStep::Skip),
    }
}

/// The last sequencing replica of the first view is suspected.
fn suspicion(shape: &Shape) -> LoadStep
    ensures { result ≡ suspicion shape.now }
{
    LoadStep::Make(WorldEvent::Suspect(seq_id(shape.seq - 1)))
}

impl LoadGen {
    /// The generator of this seed, before its first step.
    pub fn new(seed: u64) -> LoadGen
        ensures { result ≡ first_generator seed }
    {
        LoadGen {
            steps: 0,
            words: Pcg32::seed_from_u64(seed),
        }
    }

    /// The next step, in a world that it is to be made in. It is `Skip` where the step has no event, and `End`
    /// once all steps were made. Where there is no memory, the generator is as it was.
    pub fn next(&mut self, alloc: Global, world: &World) -> Result<LoadStep, AllocError>
        ensures made { IfOk result (λ step. (step, self.new) ≡ next_step world.now.shape (length world.now.sent) self.old) }
        ensures unchanged { OnErr result (self.new ≡ self.old) }
    {
        if self.steps == STEPS {
            return Ok(LoadStep::End);
        }
        let step = self.steps + 1;
        if step == SUSPICION_STEP {
            self.steps = step;
            return Ok(suspicion(world.shape()));
        }
        let mut words = self.words.clone()?;
        let word = words.next_word();
        let made = drawn_step(alloc, world.shape(), world.sent(), step, word)?;
        self.words = words;
        self.steps = step;
        Ok(made)
    }

    /// How many steps were made.
    pub fn steps(&self) -> u32
        ensures { result ≡ self.now.steps }
    {
        self.steps
    }
}
