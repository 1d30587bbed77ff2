//! A part of a read, of a shard replica.

ghost use Rattle.std.specs.Prelude.{◌≡◌};
ghost use Rattle.lazy_msgs.specs.declared.msg.Msg.TheVariants.{Part};
ghost use Rattle.lazy_msgs.specs.Step.{StepsTo};
ghost use Rattle.lazy_rules.specs.ReaderRules.{on_part, reader_took};
ghost use Rattle.log_reader.specs.Rows.{answers_with, heeds_part, keeps_on, runs_short};

use crate::door::{are_of_clients, is_shard_replica, shard_kept_by};
use crate::reader::LogReader;
use crate::stage::Stage;
use lazy_msgs::{Outbox, StepRefused};
use rec_id::PlacedList;

impl LogReader {
    /// The read is answered with this last part.
    fn answer_with(
        &mut self,
        shard: usize,
        entries: &PlacedList,
        out: &mut Outbox,
    ) -> Result<(), StepRefused>
        ensures { StepsTo (answers_with self.old entries.now shard) self.old self.new out.old out.new result StepRefused.Over }
    {
        let Stage::Fetching(fetch) = &self.stage else {
            return Ok(());
        };
        let line = fetch.entries_with(self.alloc, shard, entries)?;
        let (number, ask, tail) = (fetch.number, fetch.ask, fetch.tail);
        self.answer(number, ask, line, tail, out)
    }

    /// The part is kept, and others are waited for.
    fn keep_on(&mut self, shard: usize, entries: PlacedList)
        ensures { self.new ≡ keeps_on self.old entries shard }
    {
        self.stage.keep(shard, entries);
    }

    /// Takes a part that goes up to the end of what the read wants.
    fn heed_part(
        &mut self,
        shard: usize,
        entries: &PlacedList,
        out: &mut Outbox,
    ) -> Result<(), StepRefused>
        ensures { StepsTo (heeds_part self.old entries.now shard) self.old self.new out.old out.new result StepRefused.Over }
    {
        let Stage::Fetching(fetch) = &self.stage else {
            return Ok(());
        };
        if !fetch.lacks(shard) {
            return Ok(());
        }
        if fetch.is_last(shard) {
            return self.answer_with(shard, entries, out);
        }
        let entries = entries.copy()?;
        self.keep_on(shard, entries);
        Ok(())
    }

    /// Takes a part that ends before what the read wants.
    fn fall_short(&mut self, out: &mut Outbox) -> Result<(), StepRefused>
        ensures { StepsTo (runs_short self.old) self.old self.new out.old out.new result StepRefused.Over }
    {
        let Stage::Fetching(fetch) = &self.stage else {
            return Ok(());
        };
        if fetch.tail.is_some() {
            return Ok(());
        }
        let (number, ask) = (fetch.number, fetch.ask);
        self.probe(number, ask, out)
    }

    /// Takes one that isn't turned away.
    fn on_part(
        &mut self,
        sender: u32,
        number: u32,
        from: u32,
        end: u32,
        entries: &PlacedList,
        out: &mut Outbox,
    ) -> Result<(), StepRefused>
        ensures { StepsTo (on_part self.old sender number from end entries.now) self.old self.new out.old out.new result StepRefused.Over }
    {
        let Stage::Fetching(fetch) = &self.stage else {
            return Ok(());
        };
        if !fetch.is_of(number, from) {
            return Ok(());
        }
        if end < fetch.end {
            return self.fall_short(out);
        }
        match shard_kept_by(&self.shape, sender) {
            Some(shard) => self.heed_part(shard as usize, entries, out),
            None => Ok(()),
        }
    }

    pub(crate) fn part(
        &mut self,
        sender: u32,
        number: u32,
        from: u32,
        end: u32,
        entries: &PlacedList,
        out: &mut Outbox,
    ) -> Result<(), StepRefused>
        ensures { StepsTo (reader_took self.old sender (Part number from end entries.now)) self.old self.new out.old out.new result StepRefused.Over }
    {
        if !is_shard_replica(&self.shape, sender) {
            return Ok(());
        }
        if !are_of_clients(&self.shape, entries) {
            return Ok(());
        }
        self.on_part(sender, number, from, end, entries, out)
    }
}
