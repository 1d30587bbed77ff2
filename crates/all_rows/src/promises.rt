//! What holders and replicas agree on.

ghost use Rattle.world_facts.specs.Reached.{InEveryWorld};
ghost use Rattle.log_facts.specs.Promises.{PromisesKept};

/// A law, and no code. In every shape, after every list of events: a holder's window sees what its line names, all
/// replicas have the same below a holder's bound position, no stable number is above it, acknowledged data is there,
/// and what was trimmed is given up.
pub fn every_promise_is_kept()
    ensures { InEveryWorld (λ shape w. PromisesKept w) }
{}
