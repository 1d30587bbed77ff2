//! A load on its way: a world in which the steps of a schedule are made.

ghost use Rattle.std.specs.Prelude.{◌≡◌, ◌-◌, ◌<◌, IfOk};
ghost use Rattle.load_gen.specs.Counting.{IsCountable};
ghost use Rattle.load_gen.specs.Loading.{IsCalm, Makes, event_made, first_load, many_steps, one_step};

use crate::limits::STEPS;
use crate::load_step::LoadStep;
use crate::schedule::LoadGen;
use lazy_core::World;
use lazy_msgs::{EventRefused, WorldEvent};
use std::alloc::{AllocError, Global};
use std::marker::Model;
use view_config::Shape;

/// Whether all steps were made.
#[derive(Clone, Copy, Debug, PartialEq, Eq)]
pub enum Outcome {
    Through,
    /// The event of this step was refused as spent, and no step behind it was made.
    Spent(u32),
}

/// A world, the generator of the steps that are made in it, and how many events were refused.
#[derive(Drop)]
pub struct Load {
    world: World,
    generator: LoadGen,
    refused: u32,
}

impl Model for Load {
    ghost use Rattle.load_gen.specs.Loading.{IsUnderWay, LoadState};

    ghost Value = { LoadState };

    ghost view = { λ a. record { world = a.world; generator = a.generator; refused = a.refused } };

    ghost invariant = { λ a. IsUnderWay (record { world = a.world; generator = a.generator; refused = a.refused }) };
}

impl Load {
    /// The load of this seed in the first world of a shape, before its first step.
    pub fn new(alloc: Global, shape: &Shape, seed: u64) -> Result<Load, AllocError>
        ensures { IfOk result (λ load. load ≡ first_load shape.now seed) }
    {
        Ok(Load {
            world: World::new(alloc, shape)?,
            generator: LoadGen::new(seed),
            refused: 0,
        })
    }

    /// The world so far. It has few events and few holders, each with a lawful line.
    pub fn world(&self) -> &World
        ensures world { result.now ≡ self.now.world }
        ensures countable { IsCountable self.now.world }
    {
        &self.world
    }

    /// The world, taken out of the load.
    pub fn into_world(self) -> World
        ensures { result ≡ self.world }
    {
        self.world
    }

    /// How many events were refused.
    pub fn refused(&self) -> u32
        ensures { result ≡ self.now.refused }
    {
        self.refused
    }

    /// The event of a step that is counted already.
    fn make(&mut self, event: &WorldEvent) -> Result<Outcome, AllocError>
        requires calm { IsCalm event.now }
        requires counted { self.old.world.events < self.old.generator.steps }
        requires refused { self.old.refused < self.old.generator.steps }
        ensures { IfOk result (Makes (event_made self.old self.old.generator event.now) self.old self.new) }
    {
        match self.world.event(event) {
            Ok(()) => Ok(Outcome::Through),
            Err(EventRefused::Spent) => Ok(Outcome::Spent(self.generator.steps())),
            Err(EventRefused::Memory) => Err(AllocError),
            Err(_) => {
                self.refused += 1;
                Ok(Outcome::Through)
            }
        }
    }

    /// Makes the next step, if one is left.
    fn step(&mut self, alloc: Global) -> Result<Outcome, AllocError>
        ensures { IfOk result (Makes (one_step self.old) self.old self.new) }
    {
        match self.generator.next(alloc, &self.world)? {
            LoadStep::Make(event) => self.make(&event),
            LoadStep::Skip => Ok(Outcome::Through),
            LoadStep::End => Ok(Outcome::Through),
        }
    }

    /// Makes the steps that are left, up to one whose event is spent. Where there is no memory, some may have been
    /// made.
    pub fn run(&mut self, alloc: Global) -> Result<Outcome, AllocError>
        ensures { IfOk result (Makes (many_steps (STEPS - self.old.generator.steps) self.old) self.old self.new) }
    {
        let left = STEPS - self.generator.steps();
        for _i in 0..left {
            match self.step(alloc)? {
                Outcome::Through => {}
                Outcome::Spent(step) => return Ok(Outcome::Spent(step)),
            }
        }
        Ok(Outcome::Through)
    }
}
