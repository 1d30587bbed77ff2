//! Which calls of a stream fail, for the streams over memory.

ghost use Rattle.std.specs.Prelude.{◌≡◌, IfOk};
ghost use Rattle.io_edges.specs.Calls.{Calls, no_calls, fails_next, after_call};

use crate::count::raise;
use std::alloc::{AllocError, Global};
use std::marker::Model;

/// Counts the calls of a stream, and says which are to fail.
#[derive(Drop)]
pub struct Plan {
    made: u64,
    to_fail: Vec<u64>,
    faults: u64,
}

impl Model for Plan {
    ghost use Rattle.io_edges.specs.Calls.{Calls};

    ghost Value = { Calls };

    ghost view = { λ plan. record { made = plan.made; to_fail = plan.to_fail.items; faults = plan.faults } };
}

impl Plan {
    /// No call was made yet. Those with the numbers `to_fail`, from 1, are to fail.
    pub fn new(alloc: Global, to_fail: &[u64]) -> Result<Plan, AllocError>
        ensures { IfOk result (λ plan. plan ≡ no_calls to_fail.now) }
    {
        Ok(Plan {
            made: 0,
            to_fail: Vec::from_slice(alloc, to_fail)?,
            faults: 0,
        })
    }

    /// Whether the next call is to fail.
    pub fn fails_next(&self) -> bool
        ensures { result ≡ fails_next self.now }
    {
        self.to_fail.contains(&raise(self.made))
    }

    /// Counts one more call, and its fault where it was to fail.
    pub fn count(&mut self)
        ensures { self.new ≡ after_call self.old }
    {
        if self.fails_next() {
            self.faults = raise(self.faults);
        }
        self.made = raise(self.made);
    }
}
