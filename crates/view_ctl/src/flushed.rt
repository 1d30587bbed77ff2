//! Flushed: a shard has the taken state; once all have it, the next view starts behind it.

ghost use Rattle.std.specs.Prelude.{◌≡◌, ◌+◌, ◌^◌, nat_lt, true, false, IfOk, IfSome, IfNone};
ghost use Rattle.lazy_msgs.specs.Step.{StepsTo};
ghost use Rattle.lazy_rules.specs.ControlRules.{at_phase, starts_view, on_flushed};
ghost use Rattle.lazy_rules.specs.Flight.{answered_by, has_all};
ghost use Rattle.lazy_rules.specs.Roles.{is_first, shard_led_by};
ghost use Rattle.view_ctl.specs.Flushes.{ends_taken, have_answered, started_at, takes_answers, with_answers};

use crate::controller::Controller;
use crate::sends::starts;
use crate::stage::{Reign, Stage};
use lazy_msgs::{Outbox, StepRefused};
use plain_lists::Sequence;
use rec_id::WindowList;
use std::alloc::AllocError;
use view_config::Config;

/// The node is the first of these.
fn is_first(nodes: &[u32], node: u32) -> bool
    ensures { result ≡ is_first nodes.now node }
{
    match nodes.first() {
        Some(first) => *first == node,
        None => false,
    }
}

/// The shard whose primary the node is.
fn shard_led_by(config: &Config, node: u32) -> Option<usize>
    ensures { result ≡ shard_led_by config.now node }
{
    config
        .shards
        .as_slice()
        .iter()
        .position(|nodes| is_first(nodes.as_slice(), node))
}

/// The shards that answered, with one more.
fn answered_by(answers: &Sequence<usize>, shard: usize) -> Result<Sequence<usize>, AllocError>
    ensures { IfOk result (λ made. made ≡ answered_by answers.now shard) }
{
    let mut made = answers.copy()?;
    if !answers.as_slice().contains(&shard) {
        made.push(shard)?;
    }
    Ok(made)
}

/// So many shards have all answered.
fn has_all(count: usize, answers: &[usize]) -> bool
    ensures { result ≡ has_all count answers.now }
{
    (0..count).all(|shard| answers.contains(&shard))
}

/// How many positions are bound behind so many items from `from` on, `None` where that is no number
/// of 32 bits.
fn base_behind(from: u32, items: usize) -> Option<u32>
    ensures some { IfSome result (λ base. (base ≡ from + items) × (nat_lt (from + items) (2 ^ 32) ≡ true)) }
    ensures none { IfNone result (nat_lt (from + items) (2 ^ 32) ≡ false) }
{
    if items > (u32::MAX - from) as usize {
        return None;
    }
    Some(from + items as u32)
}

impl Controller {
    /// These shards, and no others, have the taken state.
    fn note_flushed(&mut self, flushed: Sequence<usize>)
        ensures { self.new ≡ at_phase self.old (with_answers self.old.phase flushed) }
    {
        match &mut self.stage {
            Stage::Running(_) => {}
            Stage::Sealing(_) => {}
            Stage::Flushing(taken) => taken.flushed = flushed,
        }
    }

    /// Starts the view of `config` at the bound position `base`.
    fn start(
        &mut self,
        config: Config,
        base: u32,
        window: WindowList,
        out: &mut Outbox,
    ) -> Result<(), StepRefused>
        ensures { StepsTo (starts_view (started_at self.old config base window) config) self.old self.new out.old out.new result StepRefused.Over }
    {
        let sends = starts(self.alloc, config.seq.as_slice(), &config, base, &window)?;
        out.put(sends, Sequence::new(self.alloc))?;
        self.base = base;
        self.window = window;
        self.stage = Stage::Running(Reign::new(self.alloc, config));
        Ok(())
    }

    /// Starts the view whose shards have the taken state, where there is a position behind that state.
    fn end_flush(&mut self, out: &mut Outbox) -> Result<(), StepRefused>
        ensures { StepsTo (ends_taken self.old) self.old self.new out.old out.new result StepRefused.Over }
    {
        match &self.stage {
            Stage::Flushing(taken) => {
                let Some(base) = base_behind(taken.from, taken.items.len()) else {
                    return Ok(());
                };
                let config = taken.config.copy()?;
                let window = taken.window.copy()?;
                self.start(config, base, window, out)
            }
            Stage::Running(_) => Ok(()),
            Stage::Sealing(_) => Ok(()),
        }
    }

    /// These are all shards of the taken state.
    fn have_answered(&self, answers: &[usize]) -> bool
        ensures { result ≡ have_answered self.now.phase answers.now }
    {
        match &self.stage {
            Stage::Flushing(taken) => has_all(taken.config.shards.len(), answers),
            Stage::Running(_) => false,
            Stage::Sealing(_) => false,
        }
    }

    /// Goes on where these shards have the taken state.
    fn take_answers(
        &mut self,
        answers: Sequence<usize>,
        out: &mut Outbox,
    ) -> Result<(), StepRefused>
        ensures { StepsTo (takes_answers self.old answers) self.old self.new out.old out.new result StepRefused.Over }
    {
        if self.have_answered(answers.as_slice()) {
            return self.end_flush(out);
        }
        self.note_flushed(answers);
        Ok(())
    }

    /// Takes that the primary has the taken state, with all replicas of its shard.
    pub(crate) fn on_flushed(
        &mut self,
        sender: u32,
        view: u32,
        out: &mut Outbox,
    ) -> Result<(), StepRefused>
        ensures { StepsTo (on_flushed self.old sender view) self.old self.new out.old out.new result StepRefused.Over }
    {
        match &self.stage {
            Stage::Flushing(taken) => {
                if view != taken.config.view {
                    return Ok(());
                }
                let Some(shard) = shard_led_by(&taken.config, sender) else {
                    return Ok(());
                };
                let answers = answered_by(&taken.flushed, shard)?;
                self.take_answers(answers, out)
            }
            Stage::Running(_) => Ok(()),
            Stage::Sealing(_) => Ok(()),
        }
    }
}
