//! Every input of a sequencing replica.

ghost use Rattle.view_config.specs.Shape.{Dimensions};
ghost use Rattle.log_facts.specs.Good.{SeqRows};

/// A law, and no code. In every shape, whatever a sequencing replica takes: all that the invariant says holds after its
/// step, what was said goes on being said, and what it sends says what it should.
pub fn seq_rows_are_good()
    ensures { (shape : Dimensions) → SeqRows shape }
{}
