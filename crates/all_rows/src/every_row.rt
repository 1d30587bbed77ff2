//! The rows of all roles.

ghost use Rattle.view_config.specs.Shape.{Dimensions};
ghost use Rattle.log_facts.specs.Good.{AllRows};

/// A law, and no code. In every shape, whatever a node of any role takes, wherever the invariant holds: it holds after
/// the node's step, what was said goes on being said, and what the node sends says what it should.
pub fn every_row_is_good()
    ensures { (shape : Dimensions) → AllRows shape }
{}
