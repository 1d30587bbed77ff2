//! The rule of a link, and what each kind of step at its queue does to what the ends know: a put, a
//! take, the split into two ends and their joining. All of this is for the proofs, and is never run.

ghost use Rattle.link_queue.specs.Rule.{Linked, known};

use crate::Frame;
use crossbeam_queue::protocol::{Join, Lesson, Outcome, Protocol, Split};
use crossbeam_queue::{Pass, RuledArrayQueue};
use std::collections::LinkedList;

/// What an end knows: which of the two steps are its own, the frames that went through it, and what
/// the queue held after the last of them. No value of it is made.
pub struct Known {
    pub puts: bool,
    pub takes: bool,
    pub sent: LinkedList<Frame>,
    pub after_put: LinkedList<Frame>,
    pub taken: LinkedList<Frame>,
    pub after_take: LinkedList<Frame>,
}

pub struct InOrder;

impl Protocol<Frame, Known> for InOrder {
    ghost use Rattle.std.specs.Prelude.{true, []};
    ghost use Rattle.link_queue.specs.Rule.{Linked, known};

    ghost holds = { Linked };

    ghost first = { known true true [] [] [] [] };
}

/// One end puts, the other takes.
pub struct Sides;

impl Split<Known> for Sides {
    ghost use Rattle.std.specs.Prelude.{true, false, []};
    ghost use Rattle.link_queue.specs.Rule.{known};

    ghost left = { λ v. known true false v.sent v.after_put [] [] };

    ghost right = { λ v. known false true [] [] v.taken v.after_take };
}

impl Join<Known> for Sides {
    ghost use Rattle.std.specs.Prelude.{true, false, []};
    ghost use Rattle.link_queue.specs.Rule.{known};

    ghost both = { λ v w. known true true v.sent v.after_put w.taken w.after_take };

    ghost spent = { known false false [] [] [] [] };
}

pub struct Put;

impl Outcome<Frame, Known> for Put {
    ghost use Rattle.link_queue.specs.Rule.{PutOf};

    ghost then = { PutOf };
}

impl Lesson<Frame, Known> for Put {
    ghost use Rattle.link_queue.specs.Rule.{Ending};

    ghost fact = { λ v items. Ending items v.after_put };
}

pub struct Take;

impl Outcome<Frame, Known> for Take {
    ghost use Rattle.link_queue.specs.Rule.{TakeOf};

    ghost then = { TakeOf };
}

impl Lesson<Frame, Known> for Take {
    ghost use Rattle.link_queue.specs.Rule.{Beginning};

    ghost fact = { λ v items. Beginning v.after_take items };
}

/// What both ends know together.
pub struct Whole;

impl Lesson<Frame, Known> for Whole {
    ghost use Rattle.link_queue.specs.Rule.{Between};

    ghost fact = { Between };
}

pub type Queue = RuledArrayQueue<Frame, Known, InOrder>;

pub type LinkPass = Pass<Frame, Known>;
