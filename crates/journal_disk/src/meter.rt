//! Which device calls of a disk in memory fail.

ghost use Rattle.std.specs.Prelude.{◌≡◌, ◌-◌, ◌≤◌, ◌↔◌, true, Some, None, IfOk, IsErr};
ghost use Rattle.journal_disk.specs.Meter.{unmetered, fails_next, after_call};

use io_edges::Failed;
use std::alloc::{AllocError, Global};
use std::marker::Model;

/// Counts device calls, and says which fail: those with given numbers, and from some call on all of
/// them.
#[derive(Drop)]
pub(crate) struct Meter {
    made: u64,
    to_fail: Vec<u64>,
    /// How many more calls succeed before the disk stops.
    stops_in: Option<u32>,
    faults: u64,
}

impl Model for Meter {
    ghost use Rattle.journal_disk.specs.Meter.{Metered};

    ghost Value = { Metered };

    ghost view = { λ meter. record { made = meter.made; to_fail = meter.to_fail.items; stops_in = meter.stops_in; faults = meter.faults } };
}

impl Meter {
    /// No call was made yet. Those with the numbers `to_fail`, from 1, are to fail.
    pub(crate) fn new(alloc: Global, to_fail: &[u64]) -> Result<Meter, AllocError>
        ensures { IfOk result (λ meter. meter ≡ unmetered to_fail.now) }
    {
        Ok(Meter {
            made: 0,
            to_fail: Vec::from_slice(alloc, to_fail)?,
            stops_in: None,
            faults: 0,
        })
    }

    /// The call of this number, counted from 1 after this one, and all later ones are to fail.
    pub(crate) fn stop_after(&mut self, calls: u32)
        requires { 1 ≤ calls }
        ensures { self.new ≡ record self.old { stops_in = Some (calls - 1) } }
    {
        self.stops_in = Some(calls - 1);
    }

    /// Calls of any number may succeed again.
    pub(crate) fn go_on(&mut self)
        ensures { self.new ≡ record self.old { stops_in = None } }
    {
        self.stops_in = None;
    }

    /// Whether the next call is to fail.
    fn fails_next(&self) -> bool
        ensures { result ≡ fails_next self.now }
    {
        self.to_fail.contains(&self.made.saturating_add(1)) || self.stops_in == Some(0)
    }

    /// Counts one more call, which fails where it is to.
    pub(crate) fn count(&mut self) -> Result<(), Failed>
        ensures failed { IsErr result ↔ (fails_next self.old ≡ true) }
        ensures after { self.new ≡ after_call self.old }
    {
        let fails = self.fails_next();
        self.made = self.made.saturating_add(1);
        self.stops_in = match self.stops_in {
            Some(left) => Some(left.saturating_sub(1)),
            None => None,
        };
        if fails {
            self.faults = self.faults.saturating_add(1);
            return Err(Failed);
        }
        Ok(())
    }
}
