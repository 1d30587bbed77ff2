//! Fetch: what is final is told, unless a part of what is asked for was given up.

ghost use Rattle.std.specs.Prelude.{◌≡◌, ◌≤◌, min, IfOk};
ghost use Rattle.lazy_msgs.specs.declared.msg.Msg.TheVariants.{Fetch};
ghost use Rattle.lazy_msgs.specs.Step.{StepsTo};
ghost use Rattle.lazy_rules.specs.ShardRules.{fetched, on_fetch, shard_took};

use crate::door::is_node;
use crate::node::ShardNode;
use lazy_msgs::{Msg, Outbox, StepRefused};
use std::alloc::AllocError;

impl ShardNode {
    /// What is final of the places that are asked for.
    fn fetched(&self, read: u32, from: u32, to: u32) -> Result<Msg, AllocError>
        requires { self.now.store.floor ≤ from }
        ensures { IfOk result (λ msg. msg ≡ fetched self.now read from (min to self.now.store.stable)) }
    {
        let end = to.min(self.store.stable());
        let entries = self.store.part(from, end)?;
        Ok(Msg::Part {
            read,
            from,
            end,
            entries,
        })
    }

    fn on_fetch(
        &self,
        sender: u32,
        read: u32,
        from: u32,
        to: u32,
        out: &mut Outbox,
    ) -> Result<(), StepRefused>
        ensures { StepsTo (on_fetch self.now sender read from to) self.now self.now out.old out.new result StepRefused.Over }
    {
        let floor = self.store.floor();
        if from < floor {
            out.send(sender, Msg::TrimmedAt { read, floor })?;
            return Ok(());
        }
        let part = self.fetched(read, from, to)?;
        out.send(sender, part)?;
        Ok(())
    }

    /// Takes a Fetch.
    pub(crate) fn fetch(
        &self,
        sender: u32,
        read: u32,
        from: u32,
        to: u32,
        out: &mut Outbox,
    ) -> Result<(), StepRefused>
        ensures { StepsTo (shard_took self.now sender (Fetch read from to)) self.now self.now out.old out.new result StepRefused.Over }
    {
        if !is_node(&self.seat.shape, sender) {
            return Ok(());
        }
        self.on_fetch(sender, read, from, to, out)
    }
}
