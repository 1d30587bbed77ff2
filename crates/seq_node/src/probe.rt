//! Probe: it is acknowledged, and the leader answers it, now or once all that it knows is bound.

ghost use Rattle.lazy_msgs.specs.declared.msg.Msg.TheVariants.{Probe, ProbeAck};
ghost use Rattle.std.specs.Prelude.{◌≡◌, ◌+◌, ◌<◌, ◌≤◌, ◌∷◌, false, length, true, IfOk};
ghost use Rattle.lazy_msgs.specs.Step.{StepsTo};
ghost use Rattle.lazy_rules.specs.Flight.{has_later_probe};
ghost use Rattle.lazy_rules.specs.Leading.{forces};
ghost use Rattle.lazy_rules.specs.Rows.{answers, followed, sends_all};
ghost use Rattle.lazy_rules.specs.SeqRules.{has_positions, is_leader, on_probe, seq_took, tail_sends, waits, with_waiting};
ghost use Rattle.lazy_rules.specs.declared.limits.TheConstants.{FLIGHT_LIMIT};
ghost use Rattle.seq_node.specs.Beginning.{pending_end, with_begun};

use crate::SeqNode;
use crate::stable::add_stable;
use lazy_msgs::{Msg, Outbox, SendList, StepRefused};
use plain_lists::Sequence;
use std::alloc::AllocError;
use view_config::{MAX_CLIENTS, Node};

impl SeqNode {
    /// What is sent where nothing is pending: the read is answered at once.
    fn answering(&self, sender: u32, read: u32) -> Result<SendList, AllocError>
        ensures { IfOk result (λ made. made ≡ (sender, ProbeAck self.now.view read) ∷ tail_sends self.now sender read) }
    {
        let view = self.view;
        let tail = self.bound;
        let mut sends = Sequence::new(self.alloc);
        sends.push((sender, Msg::ProbeAck { view, read }))?;
        add_stable(&self.config, view, tail, &mut sends)?;
        sends.push((sender, Msg::TailReady { view, read, tail }))?;
        Ok(sends)
    }

    /// From now on the read waits for all that is pending.
    fn keep_read(&mut self, client: u32, read: u32)
        requires client { client < MAX_CLIENTS }
        requires fits { has_positions self.old ≡ true }
        requires new { has_later_probe self.old.probes client read ≡ false }
        ensures { self.new ≡ with_waiting self.old client read }
    {
        let target = self.pending_end();
        let _ = self.binder.probe(client, read, target);
    }

    /// Sends these, the read waits, and batches begin; or none of it.
    fn send_waiting(
        &mut self,
        client: u32,
        read: u32,
        room: u32,
        limit: u32,
        sends: SendList,
        out: &mut Outbox,
    ) -> Result<(), StepRefused>
        requires client { client < MAX_CLIENTS }
        requires leads { is_leader self.old ≡ true }
        requires fits { has_positions self.old ≡ true }
        requires new { has_later_probe self.old.probes client read ≡ false }
        requires room { length self.old.flight + room ≤ FLIGHT_LIMIT }
        requires within { limit ≤ pending_end self.old }
        ensures { StepsTo (sends_all (with_begun (with_waiting self.old client read) room limit) sends) self.old self.new out.old out.new result StepRefused.Over }
    {
        out.put(sends, Sequence::new(self.alloc))?;
        self.keep_read(client, read);
        self.begin(room, limit);
        Ok(())
    }

    /// The read has to wait, and none as late does.
    fn wait_new(
        &mut self,
        client: u32,
        view: u32,
        read: u32,
        out: &mut Outbox,
    ) -> Result<(), StepRefused>
        requires client { client < MAX_CLIENTS }
        requires leads { is_leader self.old ≡ true }
        requires fits { has_positions self.old ≡ true }
        requires new { has_later_probe self.old.probes client read ≡ false }
        ensures { StepsTo (followed (answers self.old client (ProbeAck view read)) (λ after. forces (with_waiting after client read))) self.old self.new out.old out.new result StepRefused.Over }
    {
        let room = self.room();
        let from = self.flight_end();
        let end = self.pending_end();
        let mut sends = Sequence::new(self.alloc);
        sends.push((client, Msg::ProbeAck { view, read }))?;
        self.add_begun(room, from, end, &mut sends)?;
        self.send_waiting(client, read, room, end, sends, out)
    }

    /// The read has to wait, unless one as late does.
    fn wait(
        &mut self,
        client: u32,
        view: u32,
        read: u32,
        out: &mut Outbox,
    ) -> Result<(), StepRefused>
        requires client { client < MAX_CLIENTS }
        requires leads { is_leader self.old ≡ true }
        requires fits { has_positions self.old ≡ true }
        ensures { StepsTo (followed (answers self.old client (ProbeAck view read)) (λ after. waits after client read)) self.old self.new out.old out.new result StepRefused.Over }
    {
        if self.binder.has_later_read(client, read) {
            out.send(client, Msg::ProbeAck { view, read })?;
            return Ok(());
        }
        self.wait_new(client, view, read, out)
    }

    /// Takes a probe that isn't turned away.
    fn on_probe(
        &mut self,
        sender: u32,
        view: u32,
        read: u32,
        out: &mut Outbox,
    ) -> Result<(), StepRefused>
        requires { sender < MAX_CLIENTS }
        ensures { StepsTo (on_probe self.old sender view read) self.old self.new out.old out.new result StepRefused.Over }
    {
        if self.is_following(view) {
            out.send(sender, Msg::ProbeAck { view, read })?;
            return Ok(());
        }
        if !self.is_leading(view) {
            return Ok(());
        }
        if self.pending.len() == 0 {
            let sends = self.answering(sender, read)?;
            out.put(sends, Sequence::new(self.alloc))?;
            return Ok(());
        }
        self.wait(sender, view, read, out)
    }

    pub(crate) fn probe(
        &mut self,
        sender: u32,
        view: u32,
        read: u32,
        out: &mut Outbox,
    ) -> Result<(), StepRefused>
        ensures { StepsTo (seq_took self.old sender (Probe view read)) self.old self.new out.old out.new result StepRefused.Over }
    {
        match self.shape.node(sender) {
            Some(Node::Client(_)) => self.on_probe(sender, view, read, out),
            _ => Ok(()),
        }
    }
}
