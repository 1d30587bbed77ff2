//! What answers tell of records.

ghost use Rattle.world_facts.specs.Reached.{InEveryWorld};
ghost use Rattle.all_rows.specs.Records.{AreTold};

/// A law, and no code. In every shape, after every list of events, with or without a holder left: each record that an
/// answer told has the bytes with which some client appended it, and no answer told of a record that was given up.
pub fn every_told_record_was_appended()
    ensures { InEveryWorld (λ shape w. AreTold w.history) }
{}
