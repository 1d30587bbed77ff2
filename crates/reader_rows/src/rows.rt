//! Every input of a client that reads and trims, and what it is shown of the order.

ghost use Rattle.view_config.specs.Shape.{Dimensions};
ghost use Rattle.log_facts.specs.Good.{ReaderRows, SeenRows};

/// A law, and no code. In every shape, whatever a client that reads takes: all that the invariant says holds after its
/// step, what was said goes on being said, and what it sends says what it should. The same where it is shown the order.
pub fn reader_rows_are_good()
    ensures rows { (shape : Dimensions) → ReaderRows shape }
    ensures seen { (shape : Dimensions) → SeenRows shape }
{}
