//! NewView: a replica that the view names takes it where it has taken and barred none as high, and says
//! so again.

ghost use Rattle.std.specs.Prelude.{◌≡◌, ◌&&◌, nat_lt, true, IfOk};
ghost use Rattle.view_config.specs.Shape.{IsShape};
ghost use Rattle.lazy_msgs.specs.declared.msg.Msg.TheVariants.{NewView};
ghost use Rattle.lazy_msgs.specs.Step.{StepsTo};
ghost use Rattle.lazy_rules.specs.Door.{is_config, is_window};
ghost use Rattle.lazy_rules.specs.Rows.{has_node, sends_all};
ghost use Rattle.lazy_rules.specs.SeqRules.{in_view, on_new_view, seq_took, starts};
ghost use Rattle.seq_node.specs.Starting.{starting};

use crate::SeqNode;
use crate::door::{is_config, is_window};
use crate::roles::is_first;
use crate::stable::add_stable;
use binder::Binder;
use lazy_msgs::{Msg, Outbox, PENDING_LIMIT, SendList, StepRefused};
use pending_log::PendingLog;
use plain_lists::Sequence;
use rec_id::WindowList;
use seen_window::SeenWindow;
use std::alloc::AllocError;
use view_config::Config;

impl SeqNode {
    /// What a replica sends that takes this view.
    fn starting(&self, sender: u32, config: &Config, base: u32) -> Result<SendList, AllocError>
        ensures { IfOk result (λ made. made ≡ starting self.now.node sender config.now base) }
    {
        let view = config.view;
        let mut sends = Sequence::new(self.alloc);
        sends.push((sender, Msg::Started { view }))?;
        if is_first(&config.seq, self.node) {
            add_stable(config, view, base, &mut sends)?;
        }
        Ok(sends)
    }

    /// Takes the view.
    fn enter(
        &mut self,
        sender: u32,
        config: &Config,
        base: u32,
        window: &WindowList,
        out: &mut Outbox,
    ) -> Result<(), StepRefused>
        requires shape { IsShape self.old.shape }
        requires config { is_config self.old.shape config.now ≡ true }
        requires window { is_window self.old.shape window.now ≡ true }
        ensures { StepsTo (sends_all (in_view self.old config.now base window.now) (starting self.old.node sender config.now base)) self.old self.new out.old out.new result StepRefused.Over }
    {
        if config.seq.len() > u32::MAX as usize {
            // No outbox could tell so many replicas anything.
            return Err(StepRefused::Memory);
        }
        let followers = config.seq.len() as u32 - 1;
        let shards = config.shards.len() as u32;
        let next = config.copy()?;
        let marks = SeenWindow::from_image(self.alloc, window)?;
        let pending = PendingLog::with_capacity(self.alloc, PENDING_LIMIT as usize)?;
        let binder = Binder::new(self.alloc, shards, followers)?;
        let sends = self.starting(sender, config, base)?;
        out.put(sends, Sequence::new(self.alloc))?;
        self.view = config.view;
        self.config = next;
        self.sealed = false;
        self.bound = base;
        self.window = marks;
        self.pending = pending;
        self.binder = binder;
        Ok(())
    }

    /// Takes the view, as the rules say it.
    fn start(
        &mut self,
        sender: u32,
        config: &Config,
        base: u32,
        window: &WindowList,
        out: &mut Outbox,
    ) -> Result<(), StepRefused>
        requires shape { IsShape self.old.shape }
        requires config { is_config self.old.shape config.now ≡ true }
        requires window { is_window self.old.shape window.now ≡ true }
        ensures { StepsTo (starts (in_view self.old config.now base window.now) sender) self.old self.new out.old out.new result StepRefused.Over }
    {
        self.enter(sender, config, base, window, out)
    }

    /// The view is one to be taken.
    fn is_next(&self, config: &Config) -> bool
        ensures { result ≡ (nat_lt self.now.view config.now.view && nat_lt self.now.barred config.now.view && has_node config.now.seq self.now.node) }
    {
        if self.view >= config.view {
            return false;
        }
        if self.barred >= config.view {
            return false;
        }
        config.seq.as_slice().contains(&self.node)
    }

    /// Takes a new view that isn't turned away.
    fn on_new_view(
        &mut self,
        sender: u32,
        config: &Config,
        base: u32,
        window: &WindowList,
        out: &mut Outbox,
    ) -> Result<(), StepRefused>
        requires shape { IsShape self.old.shape }
        requires config { is_config self.old.shape config.now ≡ true }
        requires window { is_window self.old.shape window.now ≡ true }
        ensures { StepsTo (on_new_view self.old sender config.now base window.now) self.old self.new out.old out.new result StepRefused.Over }
    {
        if self.is_next(config) {
            return self.start(sender, config, base, window, out);
        }
        if self.view == config.view {
            out.send(sender, Msg::Started { view: config.view })?;
        }
        Ok(())
    }

    pub(crate) fn new_view(
        &mut self,
        sender: u32,
        config: &Config,
        base: u32,
        window: &WindowList,
        out: &mut Outbox,
    ) -> Result<(), StepRefused>
        ensures { StepsTo (seq_took self.old sender (NewView config.now base window.now)) self.old self.new out.old out.new result StepRefused.Over }
    {
        if self.shape.node(sender).is_none() {
            return Ok(());
        }
        if !is_window(&self.shape, window) {
            return Ok(());
        }
        if !is_config(&self.shape, config) {
            return Ok(());
        }
        self.on_new_view(sender, config, base, window, out)
    }
}
