//! Suspect: a node is replaced in the newest configuration. A view that runs is sealed first; a flush
//! begins anew, with what was taken.

ghost use Rattle.std.specs.Prelude.{◌≡◌, ◌≢◌, None, Some, Err, IfErr, IfOk, OnOk};
ghost use Rattle.std.specs.List.{list_any};
ghost use Rattle.lazy_msgs.specs.declared.refused.SuspectRefused.{SuspectRefused};
ghost use Rattle.lazy_msgs.specs.Step.{StepsTo};
ghost use Rattle.lazy_rules.specs.Rows.{has_node};
ghost use Rattle.lazy_rules.specs.ControlRules.{at_phase, is_named, next_config, refusal_of, replaces, seals_view, suspect_refusal, unused};
ghost use Rattle.view_ctl.specs.Replaced.{renamed, renames_with, replaces_with};

use crate::controller::Controller;
use crate::sends::others;
use crate::stage::{Change, Stage};
use crate::tick::seals;
use lazy_msgs::{Outbox, SendList, StepRefused, SuspectRefused};
use plain_lists::Sequence;
use view_config::{Config, ConfigError, NodeList, ShardList};

/// The node is among these.
fn has_node(nodes: &NodeList, node: u32) -> bool
    ensures { result ≡ has_node nodes.now node }
{
    nodes.as_slice().contains(&node)
}

/// The node is a replica of one of these shards.
fn is_of_shards(shards: &ShardList, node: u32) -> bool
    ensures { result ≡ list_any (λ nodes. has_node nodes node) shards.now }
{
    shards.as_slice().iter().any(|nodes| has_node(nodes, node))
}

/// The node is a replica of this configuration.
#[tactic(auto, using(crate::proofs::Names::names_replica))]
fn is_named(config: &Config, node: u32) -> bool
    ensures { result ≡ is_named config.now node }
{
    if has_node(&config.seq, node) {
        return true;
    }
    is_of_shards(&config.shards, node)
}

/// How a suspicion is refused, where there is no next configuration for this reason.
fn refusal_of(error: ConfigError) -> SuspectRefused
    ensures { result ≡ refusal_of error }
{
    match error {
        ConfigError::LastSeq => SuspectRefused::LastSeq,
        ConfigError::LastOfShard(shard) => SuspectRefused::LastOfShard(shard),
        ConfigError::ViewsSpent => SuspectRefused::ViewsSpent,
        ConfigError::Memory => SuspectRefused::Memory,
    }
}

impl Controller {
    /// Ends the view of `old`, after which `coming` is to come.
    fn seal(
        &mut self,
        old: Config,
        coming: Config,
        spares: NodeList,
        out: &mut Outbox,
    ) -> Result<(), StepRefused>
        requires { spares ≡ unused coming self.old.spares }
        ensures { StepsTo (seals_view self.old old coming) self.old self.new out.old out.new result StepRefused.Over }
    {
        let sends = seals(self.alloc, &old)?;
        out.put(sends, Sequence::new(self.alloc))?;
        self.spares = spares;
        self.stage = Stage::Sealing(Change { old, coming });
        Ok(())
    }

    /// The view that is to come has the configuration `coming`, to whose shards no state is flushed yet.
    fn set_coming(&mut self, coming: Config)
        ensures { self.new ≡ at_phase self.old (renamed self.old.phase coming) }
    {
        match &mut self.stage {
            Stage::Running(_) => {}
            Stage::Sealing(change) => change.coming = coming,
            Stage::Flushing(taken) => {
                taken.config = coming;
                taken.flushed.truncate(0);
            }
        }
    }

    /// Names `coming` for the view that is to come, with these messages.
    fn rename(
        &mut self,
        coming: Config,
        spares: NodeList,
        sends: SendList,
        out: &mut Outbox,
    ) -> Result<(), StepRefused>
        requires { spares ≡ unused coming self.old.spares }
        ensures { StepsTo (renames_with self.old coming sends) self.old self.new out.old out.new result StepRefused.Over }
    {
        out.put(sends, Sequence::new(self.alloc))?;
        self.spares = spares;
        self.set_coming(coming);
        Ok(())
    }

    /// Replaces the newest configuration by `coming`.
    fn replace(&mut self, coming: Config, out: &mut Outbox) -> Result<(), StepRefused>
        ensures { StepsTo (replaces_with self.old coming) self.old self.new out.old out.new result StepRefused.Over }
    {
        let spares = others(self.alloc, self.spares.as_slice(), coming.seq.as_slice())?;
        match &self.stage {
            Stage::Running(reign) => {
                let old = reign.config.copy()?;
                self.seal(old, coming, spares, out)
            }
            Stage::Sealing(_) => self.rename(coming, spares, Sequence::new(self.alloc), out),
            Stage::Flushing(taken) => {
                let sends = self.flushes(&coming, taken.from, &taken.items, &[])?;
                self.rename(coming, spares, sends, out)
            }
        }
    }

    /// The configuration that comes where `node` is replaced, or why none comes; that is never `Over`.
    fn coming(&self, node: u32) -> Result<Config, SuspectRefused>
        ensures made { IfOk result (λ coming. coming ≡ next_config self.now node) }
        ensures allowed { OnOk result (suspect_refusal self.now node ≡ None) }
        ensures due { (e : SuspectRefused) → suspect_refusal self.now node ≡ Some e → result ≡ Err e }
        ensures refused { IfErr result (λ e. e ≢ SuspectRefused.Memory → suspect_refusal self.now node ≡ Some e) }
        ensures not_over { IfErr result (λ e. e ≢ SuspectRefused.Over) }
    {
        let newest = self.newest();
        if !is_named(newest, node) {
            return Err(SuspectRefused::NotInView);
        }
        match newest.without(self.alloc, &[node], self.spares.as_slice()) {
            Ok(coming) => Ok(coming),
            Err(error) => Err(refusal_of(error)),
        }
    }

    /// Replaces `node` in the newest configuration: by the first spare, where it is a sequencing
    /// replica and there is one, else by none.
    ///
    /// Refused in this order: `NotInView` where the newest configuration hasn't this node, then as
    /// [`Config::without`] refuses, `Over`, `Memory`. Refused, nothing is changed.
    pub fn suspect(&mut self, node: u32, out: &mut Outbox) -> Result<(), SuspectRefused>
        ensures steps { StepsTo (replaces self.old node) self.old self.new out.old out.new result SuspectRefused.Over }
        ensures allowed { OnOk result (suspect_refusal self.old node ≡ None) }
        ensures due { (e : SuspectRefused) → suspect_refusal self.old node ≡ Some e → result ≡ Err e }
        ensures refused { IfErr result (λ e. e ≢ SuspectRefused.Over → e ≢ SuspectRefused.Memory → suspect_refusal self.old node ≡ Some e) }
        ensures over_last { result ≡ Err SuspectRefused.Over → suspect_refusal self.old node ≡ None }
    {
        let coming = self.coming(node)?;
        match self.replace(coming, out) {
            Ok(()) => Ok(()),
            Err(StepRefused::Over) => Err(SuspectRefused::Over),
            Err(StepRefused::Memory) => Err(SuspectRefused::Memory),
        }
    }
}
