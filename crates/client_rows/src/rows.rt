//! Every input of a client that appends.

ghost use Rattle.view_config.specs.Shape.{Dimensions};
ghost use Rattle.log_facts.specs.Good.{ClientRows};

/// A law, and no code. In every shape, whatever a client that appends takes: all that the invariant says holds after
/// its step, what was said goes on being said, and what it sends says what it should.
pub fn client_rows_are_good()
    ensures { (shape : Dimensions) → ClientRows shape }
{}
