//! The two ends of a link, as they are made, used and closed.

ghost use Rattle.std.specs.Prelude.{◌≡◌, ◌<◌, ◌≤◌, ◌^◌, [], ◌∷◌, ◌++◌, length, IfOk, IfErr, IfSome, IfNone, OnOk, OnErr};
ghost use Rattle.link_queue.specs.Ends.{SendSide, TakeSide, PutBehind, WasFull, WasEmpty, IsFresh, Parted, raised};
ghost use Rattle.link_queue.specs.Rule.{Beginning};

use crate::Frame;
use crate::rule::{LinkPass, Put, Queue, Sides, Take, Whole};
use std::alloc::{AllocError, Global};
use std::marker::Model;
use std::sync::{Arc, Wait};

/// The end at which frames are put.
#[derive(Drop)]
pub struct SendEnd {
    queue: Arc<Queue, Global>,
    pass: LinkPass,
    number: u32,
    offered: u64,
}

impl Model for SendEnd {
    ghost use Rattle.std.specs.Prelude.{◌≡◌, ◌≤◌, true, length};
    ghost use Rattle.std.specs.Arc.{arc_value};
    ghost use Rattle.crossbeam_queue.specs.Passes.{view as knowledge, IsPassOf, ruled_capacity};
    ghost use Rattle.link_queue.specs.Ends.{SendSide};

    ghost Value = { SendSide };

    ghost view = { λ end. record {
      link = end.pass.table_id;
      number = end.number;
      capacity = ruled_capacity (arc_value end.queue);
      sent = (knowledge end.pass).sent;
      queued = (knowledge end.pass).after_put;
      offered = end.offered;
    } };

    ghost invariant = { λ end. IsPassOf (arc_value end.queue) end.pass × ((knowledge end.pass).puts ≡ true) × (length (knowledge end.pass).sent ≤ end.offered) };
}

/// The end at which they are taken.
#[derive(Drop)]
pub struct TakeEnd {
    queue: Arc<Queue, Global>,
    pass: LinkPass,
    number: u32,
    asked: u64,
}

impl Model for TakeEnd {
    ghost use Rattle.std.specs.Prelude.{◌≡◌, ◌≤◌, true, length};
    ghost use Rattle.std.specs.Arc.{arc_value};
    ghost use Rattle.crossbeam_queue.specs.Passes.{view as knowledge, IsPassOf};
    ghost use Rattle.link_queue.specs.Ends.{TakeSide};

    ghost Value = { TakeSide };

    ghost view = { λ end. record {
      link = end.pass.table_id;
      number = end.number;
      taken = (knowledge end.pass).taken;
      queued = (knowledge end.pass).after_take;
      asked = end.asked;
    } };

    ghost invariant = { λ end. IsPassOf (arc_value end.queue) end.pass × ((knowledge end.pass).takes ≡ true) × (length (knowledge end.pass).taken ≤ end.asked) };
}

impl SendEnd {
    /// Puts `frame`, or hands it back where the link was full at a moment of the call. Fewer than 2^62
    /// frames may have been put before.
    pub fn put<R: Wait>(&mut self, rt: &R, frame: Frame) -> Result<(), Frame>
        requires { length self.old.sent < 2 ^ 62 }
        ensures link { (self.new.link ≡ self.old.link) × (self.new.number ≡ self.old.number) × (self.new.capacity ≡ self.old.capacity) }
        ensures offered { self.new.offered ≡ raised self.old.offered }
        ensures within { length self.new.sent ≤ self.new.offered }
        ensures sent { OnOk result (self.new.sent ≡ self.old.sent ++ frame ∷ []) }
        ensures queued { OnOk result (PutBehind self.old frame self.new) }
        ensures back { IfErr result (λ back. back ≡ frame) }
        ensures full { OnErr result (WasFull self.old) }
        ensures unsent { OnErr result ((self.new.sent ≡ self.old.sent) × (self.new.queued ≡ self.old.queued)) }
    {
        self.offered = self.offered.saturating_add(1);
        self.queue.push_as::<Put, R>(rt, &mut self.pass, frame)
    }
}

impl TakeEnd {
    /// Takes out the oldest frame, or none where the link was empty at a moment of the call.
    pub fn take<R: Wait>(&mut self, rt: &R) -> Option<Frame>
        ensures link { (self.new.link ≡ self.old.link) × (self.new.number ≡ self.old.number) }
        ensures asked { self.new.asked ≡ raised self.old.asked }
        ensures within { length self.new.taken ≤ self.new.asked }
        ensures taken { IfSome result (λ frame. self.new.taken ≡ self.old.taken ++ frame ∷ []) }
        ensures queued { IfSome result (λ frame. Beginning self.old.queued (frame ∷ self.new.queued)) }
        ensures empty { IfNone result (WasEmpty self.old) }
        ensures untaken { IfNone result ((self.new.taken ≡ self.old.taken) × (self.new.queued ≡ self.old.queued)) }
    {
        self.asked = self.asked.saturating_add(1);
        self.queue.pop_as::<Take, R>(rt, &mut self.pass)
    }

    /// How many takes were made, whatever they gave. The count stays at 2^64 - 1.
    pub fn asked(&self) -> u64
        ensures { result ≡ self.now.asked }
    {
        self.asked
    }
}

/// Makes a link for up to `capacity` frames (1 to 4,096), and takes all the memory that its ends need.
/// `number` is its name in contracts; two links may have the same.
pub fn link(alloc: Global, number: u32, capacity: usize) -> Result<(SendEnd, TakeEnd), AllocError>
    requires { (1 ≤ capacity) × (capacity ≤ 4096) }
    ensures { IfOk result (λ ends. IsFresh number capacity ends.0 ends.1) }
{
    let (queue, mut puts) = Queue::ruled(alloc, capacity)?;
    let takes = queue.another::<Sides>(&mut puts);
    let queue = Arc::new(alloc, queue)?;
    let shared = Arc::try_clone(&queue)?;
    let send = SendEnd {
        queue,
        pass: puts,
        number,
        offered: 0,
    };
    let take = TakeEnd {
        queue: shared,
        pass: takes,
        number,
        asked: 0,
    };
    Ok((send, take))
}

/// Ends a link, and counts the frames that were put and not taken. They are dropped.
pub fn close<R: Wait>(rt: &R, send: SendEnd, take: TakeEnd) -> u64
    requires { send.link ≡ take.link }
    ensures { Parted send take result }
{
    let SendEnd {
        queue,
        mut pass,
        ..
    } = send;
    let TakeEnd { pass: other, .. } = take;
    queue.absorb::<Sides>(&mut pass, other);
    queue.len_as::<Whole, R>(rt, &mut pass) as u64
}
