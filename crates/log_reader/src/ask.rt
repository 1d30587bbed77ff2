//! A read begins: it gets the next number, and is answered at once, fetched or forced.

ghost use Rattle.std.specs.Prelude.{◌≡◌, ◌≢◌, ◌+◌, ◌^◌, ◌<◌, ◌∷◌, [], IfOk, IfErr, OnOk, None, Some, Err};
ghost use Rattle.rec_id.specs.declared.event.Ask.TheVariants.{Range, Tail};
ghost use Rattle.lazy_msgs.specs.Step.{StepsTo};
ghost use Rattle.lazy_rules.specs.ReaderRules.{begin_refusal, begins_read, on_ask, range_refusal};
ghost use Rattle.log_reader.specs.Begun.{begun};

use crate::fetch::Fetch;
use crate::force::Force;
use crate::nodes::primaries;
use crate::reader::LogReader;
use crate::sends::{fetches, one_event, probes};
use crate::stage::Stage;
use lazy_msgs::{BeginRefused, Outbox, StepRefused};
use plain_lists::Sequence;
use rec_id::{Ask, Event, EventList, READ_LIMIT};
use std::alloc::AllocError;

/// Why a read is refused, whatever the reader's state.
fn range_refusal(ask: Ask) -> Option<BeginRefused>
    ensures { result ≡ range_refusal ask }
{
    match ask {
        Ask::Range { from, to } => {
            if to < from {
                return Some(BeginRefused::Backward);
            }
            if to - from > READ_LIMIT {
                return Some(BeginRefused::Wide);
            }
            None
        }
        Ask::Tail { from: _ } => None,
    }
}

impl LogReader {
    /// Why a read is refused, `None` where it isn't.
    fn begin_refusal(&self, ask: Ask) -> Option<BeginRefused>
        ensures { result ≡ begin_refusal self.now ask }
    {
        match self.stage.outstanding() {
            Some(number) => Some(BeginRefused::Outstanding(number)),
            None => range_refusal(ask),
        }
    }

    /// The event that the next read begins.
    fn opening(&self, ask: Ask) -> Result<EventList, AllocError>
        requires { self.now.count + 1 < 2 ^ 32 }
        ensures { IfOk result (λ events. events ≡ begun self.now ask ∷ []) }
    {
        one_event(self.alloc, Event::Begin(self.client, self.count + 1, ask))
    }

    /// Begins a read of no places, which is answered at once.
    fn begin_empty(&mut self, from: u32, out: &mut Outbox) -> Result<(), StepRefused>
        requires { self.old.count + 1 < 2 ^ 32 }
        ensures { StepsTo (begins_read self.old (Range from from)) self.old self.new out.old out.new result StepRefused.Over }
    {
        let mut events = self.opening(Ask::Range { from, to: from })?;
        events.push(Event::Answer {
            client: self.client,
            read: self.count + 1,
            from,
            entries: Sequence::new(self.alloc),
            tail: None,
        })?;
        self.begin_at(Stage::Idle, Sequence::new(self.alloc), events, out)
    }

    /// Begins a read of some places.
    fn begin_range(&mut self, from: u32, to: u32, out: &mut Outbox) -> Result<(), StepRefused>
        requires number { self.old.count + 1 < 2 ^ 32 }
        requires some { from < to }
        ensures { StepsTo (begins_read self.old (Range from to)) self.old self.new out.old out.new result StepRefused.Over }
    {
        let ask = Ask::Range { from, to };
        let fetch = Fetch::new(self.alloc, self.shape.shards, self.count + 1, ask, to, None)?;
        let primaries = primaries(self.alloc, &self.config)?;
        let sends = fetches(self.alloc, primaries.as_slice(), &fetch)?;
        let events = self.opening(ask)?;
        self.begin_at(Stage::Fetching(fetch), sends, events, out)
    }

    /// Begins a read that is forced.
    fn begin_tail(&mut self, from: u32, out: &mut Outbox) -> Result<(), StepRefused>
        requires { self.old.count + 1 < 2 ^ 32 }
        ensures { StepsTo (begins_read self.old (Tail from)) self.old self.new out.old out.new result StepRefused.Over }
    {
        let ask = Ask::Tail { from };
        let number = self.count + 1;
        let seq = self.config.seq.as_slice();
        let sends = probes(self.alloc, seq, self.config.view, number)?;
        let events = self.opening(ask)?;
        let force = Force::new(self.alloc, number, ask);
        self.begin_at(Stage::Probing(force), sends, events, out)
    }

    /// Begins a read that isn't refused.
    fn begin_read(&mut self, ask: Ask, out: &mut Outbox) -> Result<(), StepRefused>
        requires number { self.old.count + 1 < 2 ^ 32 }
        requires allowed { range_refusal ask ≡ None }
        ensures { StepsTo (begins_read self.old ask) self.old self.new out.old out.new result StepRefused.Over }
    {
        match ask {
            Ask::Range { from, to } => {
                if from < to {
                    return self.begin_range(from, to, out);
                }
                self.begin_empty(from, out)
            }
            Ask::Tail { from } => self.begin_tail(from, out),
        }
    }

    /// Begins a read and gives its number, from 1. Refused, nothing is changed.
    ///
    /// Refusals, in order: `Outstanding` with the number of the read or trim that isn't answered yet,
    /// `Backward` for a range that ends before it begins, `Wide` for one of more than 256 places, `Over`
    /// where what is sent doesn't fit into `out`, and `Memory`.
    pub fn begin(&mut self, ask: Ask, out: &mut Outbox) -> Result<u32, BeginRefused>
        requires { self.old.count + 1 < 2 ^ 32 }
        ensures number { IfOk result (λ number. number ≡ self.old.count + 1) }
        ensures steps { StepsTo (begins_read self.old ask) self.old self.new out.old out.new result BeginRefused.Over }
        ensures allowed { OnOk result (begin_refusal self.old ask ≡ None) }
        ensures refused { IfErr result (λ e. e ≢ BeginRefused.Over → e ≢ BeginRefused.Memory → begin_refusal self.old ask ≡ Some e) }
        ensures over_last { result ≡ Err BeginRefused.Over → begin_refusal self.old ask ≡ None }
    {
        if let Some(refused) = self.begin_refusal(ask) {
            return Err(refused);
        }
        let number = self.count + 1;
        match self.begin_read(ask, out) {
            Ok(()) => Ok(number),
            Err(StepRefused::Over) => Err(BeginRefused::Over),
            Err(StepRefused::Memory) => Err(BeginRefused::Memory),
        }
    }

    /// The same as a step: a refusal of the read itself leaves all as it was.
    pub(crate) fn ask(&mut self, ask: Ask, out: &mut Outbox) -> Result<(), StepRefused>
        ensures { StepsTo (on_ask self.old ask) self.old self.new out.old out.new result StepRefused.Over }
    {
        if self.begin_refusal(ask).is_some() {
            return Ok(());
        }
        if self.count == u32::MAX {
            return Ok(());
        }
        self.begin_read(ask, out)
    }
}
