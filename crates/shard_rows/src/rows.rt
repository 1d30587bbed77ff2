//! Every input of a shard replica.

ghost use Rattle.view_config.specs.Shape.{Dimensions};
ghost use Rattle.log_facts.specs.Good.{ShardRows};

/// A law, and no code. In every shape, whatever a shard replica takes: all that the invariant says holds after its step,
/// what was said goes on being said, and what it sends says what it should.
pub fn shard_rows_are_good()
    ensures { (shape : Dimensions) → ShardRows shape }
{}
