//! The word of the controller that a later view has started.

ghost use Rattle.std.specs.Prelude.{◌≡◌};
ghost use Rattle.lazy_msgs.specs.declared.msg.Msg.TheVariants.{ViewIs};
ghost use Rattle.lazy_msgs.specs.Step.{StepsTo};
ghost use Rattle.lazy_rules.specs.ReaderRules.{goes_on, on_reader_view_is, reader_took};
ghost use Rattle.log_reader.specs.Rows.{ends_trim_of, fetches_in, in_config, moves_to, probes_in, trims_in};

use crate::door::is_config;
use crate::force::Force;
use crate::reader::LogReader;
use crate::sends::{one_event, probes, round};
use crate::stage::Stage;
use lazy_msgs::{Outbox, SendList, StepRefused};
use plain_lists::Sequence;
use rec_id::Event;
use view_config::Config;

impl LogReader {
    /// Goes to this configuration at the same stage, and sends this.
    fn move_to(
        &mut self,
        config: Config,
        sends: SendList,
        out: &mut Outbox,
    ) -> Result<(), StepRefused>
        ensures { StepsTo (moves_to self.old config sends) self.old self.new out.old out.new result StepRefused.Over }
    {
        out.put(sends, Sequence::new(self.alloc))?;
        self.config = config;
        Ok(())
    }

    /// A fetching read asks the primaries of the shards that it waits for.
    fn fetch_in(&mut self, config: Config, out: &mut Outbox) -> Result<(), StepRefused>
        ensures { StepsTo (fetches_in self.old config) self.old self.new out.old out.new result StepRefused.Over }
    {
        let Stage::Fetching(fetch) = &self.stage else {
            return self.move_to(config, Sequence::new(self.alloc), out);
        };
        let sends = round(self.alloc, fetch, 0, &config)?;
        self.move_to(config, sends, out)
    }

    /// A forcing read probes anew.
    fn probe_in(&mut self, config: Config, out: &mut Outbox) -> Result<(), StepRefused>
        ensures { StepsTo (probes_in self.old config) self.old self.new out.old out.new result StepRefused.Over }
    {
        let Stage::Probing(force) = &self.stage else {
            return self.move_to(config, Sequence::new(self.alloc), out);
        };
        let sends = probes(self.alloc, config.seq.as_slice(), config.view, force.number)?;
        let anew = Stage::Probing(Force::new(self.alloc, force.number, force.ask));
        self.turn_in(config, anew, sends, Sequence::new(self.alloc), out)
    }

    /// A trim is over in this configuration.
    fn end_trim_in(
        &mut self,
        config: Config,
        number: u32,
        floor: u32,
        out: &mut Outbox,
    ) -> Result<(), StepRefused>
        ensures { StepsTo (ends_trim_of (in_config self.old config) number floor) self.old self.new out.old out.new result StepRefused.Over }
    {
        let done = Event::TrimDone {
            client: self.client,
            read: number,
            floor,
        };
        let events = one_event(self.alloc, done)?;
        let none = Sequence::new(self.alloc);
        self.turn_in(config, Stage::Idle, none, events, out)
    }

    /// A trim goes to the replicas that it waits for, or is over.
    fn trim_in(&mut self, config: Config, out: &mut Outbox) -> Result<(), StepRefused>
        ensures { StepsTo (trims_in self.old config) self.old self.new out.old out.new result StepRefused.Over }
    {
        let Stage::Trimming(trimmer) = &self.stage else {
            return self.move_to(config, Sequence::new(self.alloc), out);
        };
        if trimmer.is_complete(self.alloc, &config)? {
            let (number, floor) = (trimmer.number, trimmer.floor);
            return self.end_trim_in(config, number, floor, out);
        }
        let sends = trimmer.sends(self.alloc, &config)?;
        self.move_to(config, sends, out)
    }

    /// Goes on in this configuration.
    fn go_on(&mut self, config: Config, out: &mut Outbox) -> Result<(), StepRefused>
        ensures { StepsTo (goes_on (in_config self.old config)) self.old self.new out.old out.new result StepRefused.Over }
    {
        match &self.stage {
            Stage::Idle => self.move_to(config, Sequence::new(self.alloc), out),
            Stage::Fetching(_) => self.fetch_in(config, out),
            Stage::Probing(_) => self.probe_in(config, out),
            Stage::Trimming(_) => self.trim_in(config, out),
        }
    }

    /// Takes a configuration that isn't turned away.
    fn on_view_is(&mut self, config: &Config, out: &mut Outbox) -> Result<(), StepRefused>
        ensures { StepsTo (on_reader_view_is self.old config.now) self.old self.new out.old out.new result StepRefused.Over }
    {
        if config.view <= self.config.view {
            return Ok(());
        }
        self.go_on(config.copy()?, out)
    }

    pub(crate) fn view_is(
        &mut self,
        sender: u32,
        config: &Config,
        out: &mut Outbox,
    ) -> Result<(), StepRefused>
        ensures { StepsTo (reader_took self.old sender (ViewIs config.now)) self.old self.new out.old out.new result StepRefused.Over }
    {
        if self.shape.node(sender).is_none() {
            return Ok(());
        }
        if !is_config(&self.shape, config) {
            return Ok(());
        }
        self.on_view_is(config, out)
    }
}
