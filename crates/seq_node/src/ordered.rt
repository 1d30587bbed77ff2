//! Ordered: a follower's answer is noted.

ghost use Rattle.std.specs.Prelude.{◌≡◌, ◌+◌, ◌<◌, ◌≤◌, length, true, if◌then◌else◌, not};
ghost use Rattle.lazy_msgs.specs.declared.msg.Msg.TheVariants.{Ordered};
ghost use Rattle.lazy_msgs.specs.Step.{StepsTo};
ghost use Rattle.lazy_rules.specs.Flight.{has_ordering};
ghost use Rattle.lazy_rules.specs.Roles.{followers_of};
ghost use Rattle.lazy_rules.specs.Rows.{sends_all, stays};
ghost use Rattle.lazy_rules.specs.SeqRules.{has_positions, is_leader, notes_order, on_ordered, seq_took};
ghost use Rattle.lazy_rules.specs.declared.limits.TheConstants.{FLIGHT_LIMIT};
ghost use Rattle.seq_node.specs.Beginning.{pending_end, with_begun};
ghost use Rattle.seq_node.specs.Leaving.{once_left, order_taken};

use crate::SeqNode;
use lazy_msgs::{Outbox, SendList, StepRefused};
use plain_lists::Sequence;

impl SeqNode {
    /// The answer of this follower is noted.
    fn take_order(&mut self, follower: u32, upto: u32)
        requires known { follower < length (followers_of self.old.config) }
        requires here { has_ordering self.old.flight upto ≡ true }
        ensures { self.new ≡ order_taken self.old follower upto }
    {
        let _ = self.binder.ordered(follower, upto);
    }

    /// Sends these, the answer is noted, batches leave and batches begin; or none of it.
    fn send_ordered(
        &mut self,
        follower: u32,
        upto: u32,
        room: u32,
        limit: u32,
        sends: SendList,
        out: &mut Outbox,
    ) -> Result<(), StepRefused>
        requires leads { is_leader self.old ≡ true }
        requires fits { has_positions self.old ≡ true }
        requires known { follower < length (followers_of self.old.config) }
        requires here { has_ordering self.old.flight upto ≡ true }
        requires room { length (once_left (order_taken self.old follower upto)).flight + room ≤ FLIGHT_LIMIT }
        requires within { limit ≤ pending_end self.old }
        ensures { StepsTo (sends_all (with_begun (once_left (order_taken self.old follower upto)) room limit) sends) self.old self.new out.old out.new result StepRefused.Over }
    {
        out.put(sends, Sequence::new(self.alloc))?;
        self.take_order(follower, upto);
        self.move_on(room, limit);
        Ok(())
    }

    /// Notes the answer of this follower, where a batch awaits it.
    fn note_order(&mut self, follower: u32, upto: u32, out: &mut Outbox) -> Result<(), StepRefused>
        requires leads { is_leader self.old ≡ true }
        requires fits { has_positions self.old ≡ true }
        requires known { follower < length (followers_of self.old.config) }
        ensures { StepsTo (if not (has_ordering self.old.flight upto) then stays self.old else notes_order self.old upto follower) self.old self.new out.old out.new result StepRefused.Over }
    {
        if !self.binder.has_ordering(upto) {
            return Ok(());
        }
        let _ = self.binder.flight();
        let left = self.binder.leaving_ordered(follower, upto);
        let room = self.room_once_left(left);
        let from = self.flight_end();
        let limit = self.forced_limit();
        let mut sends = Sequence::new(self.alloc);
        self.add_left(left, &mut sends)?;
        self.add_begun(room, from, limit, &mut sends)?;
        self.send_ordered(follower, upto, room, limit, sends, out)
    }

    /// Takes an answer that isn't turned away.
    fn on_ordered(
        &mut self,
        sender: u32,
        view: u32,
        upto: u32,
        out: &mut Outbox,
    ) -> Result<(), StepRefused>
        ensures { StepsTo (on_ordered self.old sender view upto) self.old self.new out.old out.new result StepRefused.Over }
    {
        if !self.is_leading(view) {
            return Ok(());
        }
        match self.follower_of(sender) {
            Some(follower) => {
                let known = follower < self.followers() as usize;
                prove!(known);
                self.note_order(follower as u32, upto, out)
            }
            None => Ok(()),
        }
    }

    pub(crate) fn ordered(
        &mut self,
        sender: u32,
        view: u32,
        upto: u32,
        out: &mut Outbox,
    ) -> Result<(), StepRefused>
        ensures { StepsTo (seq_took self.old sender (Ordered view upto)) self.old self.new out.old out.new result StepRefused.Over }
    {
        if self.shape.node(sender).is_none() {
            return Ok(());
        }
        self.on_ordered(sender, view, upto, out)
    }
}
