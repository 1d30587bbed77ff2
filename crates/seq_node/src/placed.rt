//! Placed: the answer of a shard's primary is noted.

ghost use Rattle.std.specs.Prelude.{◌≡◌, ◌+◌, ◌<◌, ◌≤◌, length, true, if◌then◌else◌, not};
ghost use Rattle.lazy_msgs.specs.declared.msg.Msg.TheVariants.{Placed};
ghost use Rattle.lazy_msgs.specs.Step.{StepsTo};
ghost use Rattle.lazy_rules.specs.Flight.{has_placing};
ghost use Rattle.lazy_rules.specs.Rows.{sends_all, stays};
ghost use Rattle.lazy_rules.specs.SeqRules.{has_positions, is_leader, notes_place, on_placed, seq_took};
ghost use Rattle.lazy_rules.specs.declared.limits.TheConstants.{FLIGHT_LIMIT};
ghost use Rattle.seq_node.specs.Beginning.{pending_end, with_begun};
ghost use Rattle.seq_node.specs.Leaving.{once_left, place_taken};

use crate::SeqNode;
use lazy_msgs::{Outbox, SendList, StepRefused};
use plain_lists::Sequence;

impl SeqNode {
    /// The answer of this shard's primary is noted, and batches pass.
    fn take_place(&mut self, shard: u32, upto: u32)
        requires known { shard < length self.old.config.shards }
        requires here { has_placing self.old.flight upto ≡ true }
        ensures { self.new ≡ place_taken self.old shard upto }
    {
        let _ = self.binder.placed(shard, upto);
    }

    /// Sends these, the answer is noted, batches pass, leave and begin; or none of it.
    fn send_placed(
        &mut self,
        shard: u32,
        upto: u32,
        room: u32,
        limit: u32,
        sends: SendList,
        out: &mut Outbox,
    ) -> Result<(), StepRefused>
        requires leads { is_leader self.old ≡ true }
        requires fits { has_positions self.old ≡ true }
        requires known { shard < length self.old.config.shards }
        requires here { has_placing self.old.flight upto ≡ true }
        requires room { length (once_left (place_taken self.old shard upto)).flight + room ≤ FLIGHT_LIMIT }
        requires within { limit ≤ pending_end self.old }
        ensures { StepsTo (sends_all (with_begun (once_left (place_taken self.old shard upto)) room limit) sends) self.old self.new out.old out.new result StepRefused.Over }
    {
        out.put(sends, Sequence::new(self.alloc))?;
        self.take_place(shard, upto);
        self.move_on(room, limit);
        Ok(())
    }

    /// Notes the answer of this shard's primary, where a batch awaits it.
    fn note_place(&mut self, shard: u32, upto: u32, out: &mut Outbox) -> Result<(), StepRefused>
        requires leads { is_leader self.old ≡ true }
        requires fits { has_positions self.old ≡ true }
        requires known { shard < length self.old.config.shards }
        ensures { StepsTo (if not (has_placing self.old.flight upto) then stays self.old else notes_place self.old upto shard) self.old self.new out.old out.new result StepRefused.Over }
    {
        if !self.binder.has_placing(upto) {
            return Ok(());
        }
        let _ = self.binder.flight();
        let left = self.binder.leaving_placed(shard, upto);
        let room = self.room_once_left(left);
        let from = self.flight_end();
        let limit = self.forced_limit();
        let mut sends = Sequence::new(self.alloc);
        self.add_passing(0, shard, upto, &mut sends)?;
        self.add_left(left, &mut sends)?;
        self.add_begun(room, from, limit, &mut sends)?;
        self.send_placed(shard, upto, room, limit, sends, out)
    }

    /// Takes an answer that isn't turned away.
    fn on_placed(
        &mut self,
        sender: u32,
        view: u32,
        upto: u32,
        out: &mut Outbox,
    ) -> Result<(), StepRefused>
        ensures { StepsTo (on_placed self.old sender view upto) self.old self.new out.old out.new result StepRefused.Over }
    {
        if !self.is_leading(view) {
            return Ok(());
        }
        match self.shard_led_by(sender) {
            Some(shard) => {
                let known = shard < self.shards() as usize;
                prove!(known);
                self.note_place(shard as u32, upto, out)
            }
            None => Ok(()),
        }
    }

    pub(crate) fn placed(
        &mut self,
        sender: u32,
        view: u32,
        upto: u32,
        out: &mut Outbox,
    ) -> Result<(), StepRefused>
        ensures { StepsTo (seq_took self.old sender (Placed view upto)) self.old self.new out.old out.new result StepRefused.Over }
    {
        if self.shape.node(sender).is_none() {
            return Ok(());
        }
        self.on_placed(sender, view, upto, out)
    }
}
