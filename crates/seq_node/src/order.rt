//! Order: a follower binds what is next, and says again what it has bound before.

ghost use Rattle.std.specs.Prelude.{◌≡◌, ◌+◌, ◌^◌, ◌<◌, [], length, nat_lt, true};
ghost use Rattle.std.specs.List.{list_all};
ghost use Rattle.lazy_msgs.specs.declared.msg.Msg.TheVariants.{Order, Ordered};
ghost use Rattle.lazy_msgs.specs.Step.{StepsTo};
ghost use Rattle.lazy_rules.specs.Door.{has_client};
ghost use Rattle.lazy_rules.specs.Rows.{answers};
ghost use Rattle.lazy_rules.specs.SeqRules.{binds, is_following, on_order, seq_took, with_bound};
ghost use Rattle.lazy_rules.specs.Windows.{marked_all};

use crate::SeqNode;
use crate::door::has_clients;
use lazy_msgs::{Msg, Outbox, StepRefused};
use rec_id::{IdList, RecordId};
use seen_window::SeenWindow;

/// Marks these identities.
fn mark_all(window: &mut SeenWindow, ids: &[RecordId])
    requires { list_all (λ id. nat_lt id.client (length window.old)) ids.now ≡ true }
    ensures { window.new ≡ marked_all window.old ids.now }
{
    for id in ids {
        window.mark(*id);
    }
}

impl SeqNode {
    /// These identities are bound next.
    fn bind(&mut self, ids: &IdList)
        requires clients { list_all (has_client self.old.shape) ids.now ≡ true }
        requires fits { self.old.bound + length ids.now < 2 ^ 32 }
        requires idle { self.old.flight ≡ [] }
        ensures { self.new ≡ with_bound self.old ids.now }
    {
        self.pending.remove_ids(ids.as_slice());
        mark_all(&mut self.window, ids.as_slice());
        self.bound += ids.len() as u32;
    }

    /// A follower binds what is next.
    fn binds(
        &mut self,
        sender: u32,
        view: u32,
        ids: &IdList,
        out: &mut Outbox,
    ) -> Result<(), StepRefused>
        requires clients { list_all (has_client self.old.shape) ids.now ≡ true }
        requires following { is_following self.old view ≡ true }
        ensures { StepsTo (binds self.old sender view ids.now) self.old self.new out.old out.new result StepRefused.Over }
    {
        if ids.len() > (u32::MAX - self.bound) as usize {
            return Ok(());
        }
        let upto = self.bound + ids.len() as u32;
        out.send(sender, Msg::Ordered { view, upto })?;
        self.bind(ids);
        Ok(())
    }

    /// Takes an order that isn't turned away.
    fn on_order(
        &mut self,
        sender: u32,
        view: u32,
        from: u32,
        ids: &IdList,
        out: &mut Outbox,
    ) -> Result<(), StepRefused>
        requires { list_all (has_client self.old.shape) ids.now ≡ true }
        ensures { StepsTo (on_order self.old sender view from ids.now) self.old self.new out.old out.new result StepRefused.Over }
    {
        if !self.is_following(view) {
            return Ok(());
        }
        if from == self.bound {
            return self.binds(sender, view, ids, out);
        }
        if from > self.bound {
            return Ok(());
        }
        if ids.len() > (self.bound - from) as usize {
            return Ok(());
        }
        let upto = from + ids.len() as u32;
        out.send(sender, Msg::Ordered { view, upto })?;
        Ok(())
    }

    pub(crate) fn order(
        &mut self,
        sender: u32,
        view: u32,
        from: u32,
        ids: &IdList,
        out: &mut Outbox,
    ) -> Result<(), StepRefused>
        ensures { StepsTo (seq_took self.old sender (Order view from ids.now)) self.old self.new out.old out.new result StepRefused.Over }
    {
        if self.shape.node(sender).is_none() {
            return Ok(());
        }
        if !has_clients(&self.shape, ids) {
            return Ok(());
        }
        self.on_order(sender, view, from, ids, out)
    }
}
