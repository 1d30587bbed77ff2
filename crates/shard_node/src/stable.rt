//! Stable: the order is final up to here, and is claimed on the board.

ghost use Rattle.std.specs.Prelude.{◌≡◌};
ghost use Rattle.lazy_msgs.specs.declared.msg.Msg.TheVariants.{Stable};
ghost use Rattle.lazy_msgs.specs.Step.{StepsTo};
ghost use Rattle.lazy_rules.specs.ShardRules.{on_stable, shard_took};

use crate::door::is_node;
use crate::node::ShardNode;
use lazy_msgs::{Msg, Outbox, StepRefused};
use view_config::BOARD;

impl ShardNode {
    fn on_stable(&mut self, view: u32, upto: u32, out: &mut Outbox) -> Result<(), StepRefused>
        ensures { StepsTo (on_stable self.old view upto) self.old self.new out.old out.new result StepRefused.Over }
    {
        if self.seat.view != view {
            return Ok(());
        }
        if upto <= self.store.stable() {
            return Ok(());
        }
        if upto > self.store.len() {
            return Ok(());
        }
        if self.store.has_open_below(upto) {
            return Ok(());
        }
        out.send(BOARD, Msg::Claim { stable: upto })?;
        self.store.raise_stable(upto);
        Ok(())
    }

    /// Takes a Stable.
    pub(crate) fn stable(
        &mut self,
        sender: u32,
        view: u32,
        upto: u32,
        out: &mut Outbox,
    ) -> Result<(), StepRefused>
        ensures { StepsTo (shard_took self.old sender (Stable view upto)) self.old self.new out.old out.new result StepRefused.Over }
    {
        if !is_node(&self.seat.shape, sender) {
            return Ok(());
        }
        self.on_stable(view, upto, out)
    }
}
