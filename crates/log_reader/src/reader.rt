//! A client's reads and trims: its state, what can be asked of it, and how a step is ended.

ghost use Rattle.std.specs.Prelude.{◌≡◌, ◌+◌, ◌<◌, ◌≤◌, ◌^◌, length, IfOk};
ghost use Rattle.lazy_msgs.specs.Step.{StepsTo};
ghost use Rattle.lazy_rules.specs.ReaderState.{first_reader, is_at_work};
ghost use Rattle.log_reader.specs.StageView.{stage_of};
ghost use Rattle.log_reader.specs.Rows.{begins_at, turns, turns_in};

use crate::stage::Stage;
use lazy_msgs::{Outbox, SendList, StepRefused};
use rec_id::EventList;
use std::alloc::{AllocError, Global};
use std::marker::Model;
use view_config::{Config, Shape};

/// A client's reads and trims: at most one is at work.
#[derive(Drop)]
pub struct LogReader {
    pub(crate) alloc: Global,
    pub(crate) shape: Shape,
    pub(crate) client: u32,
    pub(crate) config: Config,
    pub(crate) count: u32,
    pub(crate) reach: u32,
    pub(crate) stage: Stage,
}

impl Model for LogReader {
    ghost use Rattle.lazy_rules.specs.ReaderState.{ReaderState};

    ghost Value = { ReaderState };

    ghost use Rattle.log_reader.specs.StageView.{stage_of};

    ghost view = { λ a. record { shape = a.shape; client = a.client; config = a.config; count = a.count; reach = a.reach; stage = stage_of a.stage } };
}

impl LogReader {
    /// Client `client`, which has read and trimmed nothing.
    pub fn new(alloc: Global, shape: &Shape, client: u32) -> Result<LogReader, AllocError>
        requires { client < shape.now.clients }
        ensures { IfOk result (λ made. made ≡ first_reader shape.now client) }
    {
        Ok(LogReader {
            alloc,
            shape: *shape,
            client,
            config: Config::initial(alloc, shape)?,
            count: 0,
            reach: 0,
            stage: Stage::Idle,
        })
    }

    /// A read or a trim isn't answered yet.
    pub fn busy(&self) -> bool
        ensures { result ≡ is_at_work self.now.stage }
    {
        self.stage.is_at_work()
    }

    /// An equal reader.
    pub fn copy(&self) -> Result<LogReader, AllocError>
        ensures { IfOk result (λ made. made ≡ self.now) }
    {
        Ok(LogReader {
            alloc: self.alloc,
            shape: self.shape,
            client: self.client,
            config: self.config.copy()?,
            count: self.count,
            reach: self.reach,
            stage: self.stage.copy(self.alloc)?,
        })
    }

    /// Ends a step that goes to another stage.
    pub(crate) fn turn(
        &mut self,
        stage: Stage,
        sends: SendList,
        events: EventList,
        out: &mut Outbox,
    ) -> Result<(), StepRefused>
        requires { length events ≤ 2 }
        ensures { StepsTo (turns self.old (stage_of stage) sends events) self.old self.new out.old out.new result StepRefused.Over }
    {
        out.put(sends, events)?;
        self.stage = stage;
        Ok(())
    }

    /// Ends a step that goes to another configuration and stage.
    pub(crate) fn turn_in(
        &mut self,
        config: Config,
        stage: Stage,
        sends: SendList,
        events: EventList,
        out: &mut Outbox,
    ) -> Result<(), StepRefused>
        requires { length events ≤ 2 }
        ensures { StepsTo (turns_in self.old config (stage_of stage) sends events) self.old self.new out.old out.new result StepRefused.Over }
    {
        out.put(sends, events)?;
        self.config = config;
        self.stage = stage;
        Ok(())
    }

    /// Ends a step that begins the next read or trim.
    pub(crate) fn begin_at(
        &mut self,
        stage: Stage,
        sends: SendList,
        events: EventList,
        out: &mut Outbox,
    ) -> Result<(), StepRefused>
        requires few { length events ≤ 2 }
        requires number { self.old.count + 1 < 2 ^ 32 }
        ensures { StepsTo (begins_at self.old (stage_of stage) sends events) self.old self.new out.old out.new result StepRefused.Over }
    {
        out.put(sends, events)?;
        self.count += 1;
        self.stage = stage;
        Ok(())
    }
}
