//! Numbers of 32 bits are never spent in a run of fewer events.

ghost use Rattle.std.specs.Prelude.{◌+◌, ◌<◌, ◌^◌};
ghost use Rattle.world_facts.specs.Numbers.{HasNumbers};
ghost use Rattle.world_facts.specs.Reached.{WhereAskedInWords};

/// A law, and no code. After every list of fewer than 2^32 - 2 events, in which reads are asked with
/// numbers of 32 bits, the next number that any row may want is one of 32 bits: no row is skipped, and no
/// event refused, because numbers are spent.
pub fn no_number_is_spent()
    ensures { WhereAskedInWords (λ shape w. w.events + 2 < 2 ^ 32 → HasNumbers w) }
{}
