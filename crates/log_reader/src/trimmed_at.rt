//! The word of a shard replica that a part of what a read wants was given up.

ghost use Rattle.std.specs.Prelude.{◌≡◌};
ghost use Rattle.lazy_msgs.specs.declared.msg.Msg.TheVariants.{TrimmedAt};
ghost use Rattle.lazy_msgs.specs.Step.{StepsTo};
ghost use Rattle.lazy_rules.specs.ReaderRules.{ends_read, on_trimmed_at, reader_took};

use crate::fetch::asked_from;
use crate::reader::LogReader;
use crate::sends::one_event;
use crate::stage::Stage;
use lazy_msgs::{Outbox, StepRefused};
use plain_lists::Sequence;
use rec_id::Event;

impl LogReader {
    /// The read is over.
    fn end_read(&mut self, number: u32, floor: u32, out: &mut Outbox) -> Result<(), StepRefused>
        ensures { StepsTo (ends_read self.old number floor) self.old self.new out.old out.new result StepRefused.Over }
    {
        let trimmed = Event::Trimmed {
            client: self.client,
            read: number,
            floor,
        };
        let events = one_event(self.alloc, trimmed)?;
        self.turn(Stage::Idle, Sequence::new(self.alloc), events, out)
    }

    /// Takes one that isn't turned away.
    fn on_trimmed_at(
        &mut self,
        number: u32,
        floor: u32,
        out: &mut Outbox,
    ) -> Result<(), StepRefused>
        ensures { StepsTo (on_trimmed_at self.old number floor) self.old self.new out.old out.new result StepRefused.Over }
    {
        let Stage::Fetching(fetch) = &self.stage else {
            return Ok(());
        };
        if fetch.number != number {
            return Ok(());
        }
        if floor <= asked_from(fetch.ask) {
            return Ok(());
        }
        self.end_read(number, floor, out)
    }

    pub(crate) fn trimmed_at(
        &mut self,
        sender: u32,
        number: u32,
        floor: u32,
        out: &mut Outbox,
    ) -> Result<(), StepRefused>
        ensures { StepsTo (reader_took self.old sender (TrimmedAt number floor)) self.old self.new out.old out.new result StepRefused.Over }
    {
        if self.shape.node(sender).is_none() {
            return Ok(());
        }
        self.on_trimmed_at(number, floor, out)
    }
}
