//! A tick: what isn't answered is sent again.

ghost use Rattle.std.specs.Prelude.{◌≡◌, ◌++◌, ◌+◌, ◌<◌, ◌^◌, IfOk};
ghost use Rattle.lazy_msgs.specs.Step.{StepsTo};
ghost use Rattle.lazy_rules.specs.ReaderRules.{on_reader_tick};
ghost use Rattle.lazy_rules.specs.Rows.{sends_all};
ghost use Rattle.log_reader.specs.Rounds.{asks_again, probes_lacking, reminder};
ghost use Rattle.log_reader.specs.Rows.{fetches_on};

use crate::fetch::Fetch;
use crate::force::Force;
use crate::nodes::awaited;
use crate::reader::LogReader;
use crate::sends::{probes, round};
use crate::stage::Stage;
use lazy_msgs::{Msg, Outbox, SendList, StepRefused};
use plain_lists::Sequence;
use std::alloc::{AllocError, Global};
use view_config::Config;

impl Force {
    /// The probe for those whose word the read waits for.
    fn sends(&self, alloc: Global, config: &Config) -> Result<SendList, AllocError>
        ensures { IfOk result (λ sends. sends ≡ probes_lacking config.now self.now) }
    {
        let seq = config.seq.as_slice();
        let awaited = awaited(alloc, seq, self.acked.as_slice(), self.tail)?;
        probes(alloc, awaited.as_slice(), config.view, self.number)
    }
}

impl Fetch {
    /// Where a tail was told the leader is probed again, so that it tells the shards what is bound.
    fn remind(&self, config: &Config, sends: &mut SendList) -> Result<(), AllocError>
        ensures { IfOk result (λ _. sends.new ≡ sends.old ++ reminder config.now self.now) }
    {
        if self.tail.is_none() {
            return Ok(());
        }
        let Some(leader) = config.seq.as_slice().first() else {
            return Ok(());
        };
        let msg = Msg::Probe {
            view: config.view,
            read: self.number,
        };
        sends.push((*leader, msg))
    }

    /// The next replica of each shard that is waited for is asked, and the leader reminded.
    fn sends(&self, alloc: Global, config: &Config) -> Result<SendList, AllocError>
        requires { self.now.turn + 1 < 2 ^ 32 }
        ensures { IfOk result (λ sends. sends ≡ asks_again config.now self.now) }
    {
        let mut sends = round(alloc, self, self.turn + 1, config)?;
        self.remind(config, &mut sends)?;
        Ok(sends)
    }
}

impl LogReader {
    /// Ends a step that sends this and changes nothing.
    fn send_all(&mut self, sends: SendList, out: &mut Outbox) -> Result<(), StepRefused>
        ensures { StepsTo (sends_all self.old sends) self.old self.new out.old out.new result StepRefused.Over }
    {
        out.put(sends, Sequence::new(self.alloc))?;
        Ok(())
    }

    /// A fetching read asks again, unless its turns are spent.
    fn fetch_on(&mut self, out: &mut Outbox) -> Result<(), StepRefused>
        ensures { StepsTo (fetches_on self.old) self.old self.new out.old out.new result StepRefused.Over }
    {
        let Stage::Fetching(fetch) = &self.stage else {
            return Ok(());
        };
        if fetch.turn == u32::MAX {
            return Ok(());
        }
        let sends = fetch.sends(self.alloc, &self.config)?;
        out.put(sends, Sequence::new(self.alloc))?;
        self.stage.take_turn();
        Ok(())
    }

    pub(crate) fn tick(&mut self, out: &mut Outbox) -> Result<(), StepRefused>
        ensures { StepsTo (on_reader_tick self.old) self.old self.new out.old out.new result StepRefused.Over }
    {
        match &self.stage {
            Stage::Idle => Ok(()),
            Stage::Fetching(_) => self.fetch_on(out),
            Stage::Probing(force) => {
                let sends = force.sends(self.alloc, &self.config)?;
                self.send_all(sends, out)
            }
            Stage::Trimming(trimmer) => {
                let sends = trimmer.sends(self.alloc, &self.config)?;
                self.send_all(sends, out)
            }
        }
    }
}
