//! The numbers of a load. Code and definitions share them.

/// How many steps a load has.
pub const STEPS: u32 = 20_000;

/// The step at which a replica is suspected, counted from 1.
pub const SUSPICION_STEP: u32 = 10_000;

/// How many messages back a delivery of a late message reaches at most.
pub(crate) const LATE: u32 = 64;

/// A tail is read from one of so many positions, from 0 on.
pub(crate) const TAILS: u32 = 64;
