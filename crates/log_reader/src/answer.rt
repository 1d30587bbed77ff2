//! How a read goes on and ends: it begins to probe or to fetch, or it is answered.

ghost use Rattle.std.specs.Prelude.{◌≡◌, ◌<◌, ◌^◌, ◌+◌};
ghost use Rattle.rec_id.specs.History.{answer_reach, asked_from, end_of};
ghost use Rattle.lazy_msgs.specs.Step.{StepsTo};
ghost use Rattle.lazy_rules.specs.ReaderRules.{answered, decides, fetches, forced_end, probes_all};
ghost use Rattle.log_reader.specs.Rows.{concludes_of};

use crate::fetch::{Fetch, asked_from};
use crate::force::Force;
use crate::nodes::{have_all, primaries};
use crate::reader::LogReader;
use crate::sends::{fetches, one_event, probes};
use crate::stage::Stage;
use lazy_msgs::{Outbox, StepRefused};
use plain_lists::Sequence;
use rec_id::{Ask, Event, Line, READ_LIMIT};

/// How far an answer of these entries reaches.
fn answer_reach(from: u32, entries: &Line, tail: Option<u32>) -> u32
    requires { end_of from entries.now < 2 ^ 32 }
    ensures { result ≡ answer_reach from entries.now tail }
{
    match tail {
        Some(tail) => tail,
        None => match entries.as_slice() {
            [] => 0,
            [_, ..] => from + entries.len() as u32,
        },
    }
}

/// The end of what a forced read wants, of a log of this tail.
fn forced_end(ask: Ask, tail: u32) -> u32
    ensures { result ≡ forced_end ask tail }
{
    match ask {
        Ask::Range { from: _, to } => to.min(tail),
        Ask::Tail { from } => from.saturating_add(READ_LIMIT).min(tail),
    }
}

impl LogReader {
    /// The read is answered, and over.
    pub(crate) fn answer(
        &mut self,
        number: u32,
        ask: Ask,
        entries: Line,
        tail: Option<u32>,
        out: &mut Outbox,
    ) -> Result<(), StepRefused>
        requires { end_of (asked_from ask) entries < 2 ^ 32 }
        ensures { StepsTo (answered self.old number ask entries tail) self.old self.new out.old out.new result StepRefused.Over }
    {
        let from = asked_from(ask);
        let reach = answer_reach(from, &entries, tail);
        let answer = Event::Answer {
            client: self.client,
            read: number,
            from,
            entries,
            tail,
        };
        let events = one_event(self.alloc, answer)?;
        out.put(Sequence::new(self.alloc), events)?;
        self.stage = Stage::Idle;
        self.reach = self.reach.max(reach);
        Ok(())
    }

    /// The read begins to fetch up to this end: it asks all primaries.
    fn fetch(
        &mut self,
        number: u32,
        ask: Ask,
        end: u32,
        tail: Option<u32>,
        out: &mut Outbox,
    ) -> Result<(), StepRefused>
        ensures { StepsTo (fetches self.old number ask end tail) self.old self.new out.old out.new result StepRefused.Over }
    {
        let fetch = Fetch::new(self.alloc, self.shape.shards, number, ask, end, tail)?;
        let primaries = primaries(self.alloc, &self.config)?;
        let sends = fetches(self.alloc, primaries.as_slice(), &fetch)?;
        let events = Sequence::new(self.alloc);
        self.turn(Stage::Fetching(fetch), sends, events, out)
    }

    /// The read begins to force: it probes all sequencing replicas.
    pub(crate) fn probe(
        &mut self,
        number: u32,
        ask: Ask,
        out: &mut Outbox,
    ) -> Result<(), StepRefused>
        ensures { StepsTo (probes_all self.old number ask) self.old self.new out.old out.new result StepRefused.Over }
    {
        let seq = self.config.seq.as_slice();
        let sends = probes(self.alloc, seq, self.config.view, number)?;
        let force = Force::new(self.alloc, number, ask);
        let events = Sequence::new(self.alloc);
        self.turn(Stage::Probing(force), sends, events, out)
    }

    /// The tail of a forced read is there: it wants no more than lies below.
    fn conclude(
        &mut self,
        number: u32,
        ask: Ask,
        tail: u32,
        out: &mut Outbox,
    ) -> Result<(), StepRefused>
        ensures { StepsTo (concludes_of self.old number ask tail) self.old self.new out.old out.new result StepRefused.Over }
    {
        let end = forced_end(ask, tail);
        if end <= asked_from(ask) {
            let none = Sequence::new(self.alloc);
            return self.answer(number, ask, none, Some(tail), out);
        }
        self.fetch(number, ask, end, Some(tail), out)
    }

    /// A forcing read goes on once all sequencing replicas acknowledged and the tail is there.
    pub(crate) fn decide(&mut self, force: Force, out: &mut Outbox) -> Result<(), StepRefused>
        ensures { StepsTo (decides self.old force) self.old self.new out.old out.new result StepRefused.Over }
    {
        if !have_all(self.config.seq.as_slice(), force.acked.as_slice()) {
            self.stage = Stage::Probing(force);
            return Ok(());
        }
        match force.tail {
            Some(tail) => self.conclude(force.number, force.ask, tail, out),
            None => {
                self.stage = Stage::Probing(force);
                Ok(())
            }
        }
    }
}
