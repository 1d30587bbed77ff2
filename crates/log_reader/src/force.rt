//! A read that is forcing: which sequencing replicas acknowledged its probe, and the tail.

ghost use Rattle.std.specs.Prelude.{◌≡◌, ◌==◌, ◌&&◌, None, Some, IfOk};
ghost use Rattle.lazy_rules.specs.ReaderRules.{acked_force, new_force, with_tail};

use crate::nodes::with_node;
use plain_lists::Sequence;
use rec_id::Ask;
use std::alloc::{AllocError, Global};
use std::marker::Model;
use view_config::NodeList;

/// A read that is forcing: its number and what it asks for, the sequencing replicas that acknowledged
/// its probe in the reader's view, and the tail, if the leader told it.
#[derive(Drop)]
pub(crate) struct Force {
    pub(crate) number: u32,
    pub(crate) ask: Ask,
    pub(crate) acked: NodeList,
    pub(crate) tail: Option<u32>,
}

impl Model for Force {
    ghost use Rattle.lazy_rules.specs.ReaderState.{Force as Forced};

    ghost Value = { Forced };

    ghost view = { λ a. record { number = a.number; ask = a.ask; acked = a.acked; tail = a.tail } };
}

impl Force {
    /// Nobody acknowledged, and no tail is there.
    pub(crate) fn new(alloc: Global, number: u32, ask: Ask) -> Force
        ensures { result ≡ new_force number ask }
    {
        Force {
            number,
            ask,
            acked: Sequence::new(alloc),
            tail: None,
        }
    }

    /// An equal force.
    pub(crate) fn copy(&self) -> Result<Force, AllocError>
        ensures { IfOk result (λ made. made ≡ self.now) }
    {
        Ok(Force {
            number: self.number,
            ask: self.ask,
            acked: self.acked.copy()?,
            tail: self.tail,
        })
    }

    /// The force with one more node that acknowledged, each once.
    pub(crate) fn acked_by(&self, node: u32) -> Result<Force, AllocError>
        ensures { IfOk result (λ made. made ≡ acked_force self.now node) }
    {
        Ok(Force {
            number: self.number,
            ask: self.ask,
            acked: with_node(&self.acked, node)?,
            tail: self.tail,
        })
    }

    /// The force with this tail.
    pub(crate) fn told(&self, tail: u32) -> Result<Force, AllocError>
        ensures { IfOk result (λ made. made ≡ with_tail self.now tail) }
    {
        Ok(Force {
            number: self.number,
            ask: self.ask,
            acked: self.acked.copy()?,
            tail: Some(tail),
        })
    }
}
