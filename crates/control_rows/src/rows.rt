//! Every input of the controller.

ghost use Rattle.view_config.specs.Shape.{Dimensions};
ghost use Rattle.log_facts.specs.Good.{ControlRows};

/// A law, and no code. In every shape, whatever the controller takes: all that the invariant says holds after its step,
/// what was said goes on being said, and what it sends says what it should.
pub fn control_rows_are_good()
    ensures { (shape : Dimensions) → ControlRows shape }
{}
