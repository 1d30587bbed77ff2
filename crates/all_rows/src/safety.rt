//! The safety of the log.

ghost use Rattle.world_facts.specs.Reached.{InEveryWorld};
ghost use Rattle.log_facts.specs.LawfulLines.{AreLinesLawful};

/// A law, and no code. In every shape, both modes and both editions, after every list of events (posts, reads, trims,
/// peeks, deliveries in any order and any number of times, losses, ticks, graces, crashes and suspicions, refused ones
/// among them): the line of each holder that isn't lost is lawful for what the clients did and were told.
pub fn every_line_is_lawful()
    ensures { InEveryWorld (λ shape w. AreLinesLawful w) }
{}
