//! The sizes of what nodes have and messages carry, and what follows from them.

ghost use Rattle.std.specs.Prelude.{◌≡◌, ◌<◌, false};
ghost use Rattle.list_facts.specs.Lists.{Each};
ghost use Rattle.view_config.specs.declared.edition.Edition.TheVariants.{One};
ghost use Rattle.lazy_msgs.specs.FrameLimits.{Fits};
ghost use Rattle.lazy_msgs.specs.declared.limits.TheConstants.{TIME_LIMIT};
ghost use Rattle.lazy_rules.specs.Door.{is_turned_away};
ghost use Rattle.world_facts.specs.Reached.{WhereAskedInWords};
ghost use Rattle.world_facts.specs.Sizes.{GivesNothingUp};
ghost use Rattle.world_facts.specs.SizesOf.{HasSizes};

/// A law, and no code. In every shape, after every list of events in which reads are asked with
/// numbers of 32 bits: what each node has and each message carries is within its limits, and no message is
/// turned away at the door of any node.
pub fn no_message_is_turned_away()
    ensures sizes { WhereAskedInWords HasSizes }
    ensures let_in { WhereAskedInWords (λ shape w. Each (λ e. is_turned_away shape e.from e.msg ≡ false) w.sent) }
{}

/// A law, and no code. While times are below their limit, every message that was sent fits a frame of its
/// shape's edition; in edition Two, unless it carries a cell whose data was given up.
pub fn every_message_fits()
    ensures in_one { WhereAskedInWords (λ shape w. w.events < TIME_LIMIT → shape.edition ≡ One → Each (Fits shape.edition) w.sent) }
    ensures in_both { WhereAskedInWords (λ shape w. w.events < TIME_LIMIT → Each (λ e. GivesNothingUp e.msg → Fits shape.edition e) w.sent) }
{}
