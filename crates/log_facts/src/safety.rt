//! The safety of the log, as laws.

ghost use Rattle.view_config.specs.Shape.{Dimensions, IsShape};
ghost use Rattle.log_facts.specs.LawfulLines.{GoodRowsKeepLines, GoodRowsKeepPromises};

/// A law, and no code. In every shape, where every row of every role is good: after every list of events (refused
/// ones among them) the line of each holder that isn't lost is lawful for what the clients did and were told.
pub fn good_rows_keep_lines_lawful()
    ensures { (shape : Dimensions) → IsShape shape → GoodRowsKeepLines shape }
{}

/// A law, and no code. In the same way what holders and shard replicas agree on is kept: what a holder's window sees,
/// what all replicas have below a holder's bound position, that no stable number is above it, that acknowledged data
/// is there, and that what was trimmed is given up.
pub fn good_rows_keep_promises()
    ensures { (shape : Dimensions) → IsShape shape → GoodRowsKeepPromises shape }
{}
