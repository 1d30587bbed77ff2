//! Frames of messages.

ghost use Rattle.std.specs.Prelude.{◌<◌};
ghost use Rattle.list_facts.specs.Lists.{Each};
ghost use Rattle.lazy_msgs.specs.FrameLimits.{Fits};
ghost use Rattle.lazy_msgs.specs.declared.limits.TheConstants.{TIME_LIMIT};
ghost use Rattle.world_facts.specs.Reached.{WhereAskedInWords};

/// A law, and no code. While times are below their limit, and where reads are asked with numbers of 32 bits, every
/// message that was sent fits a frame of its shape's edition: nobody hands on a cell whose data was given up.
pub fn every_message_has_a_frame()
    ensures { WhereAskedInWords (λ shape w. w.events < TIME_LIMIT → Each (Fits shape.edition) w.sent) }
{}
