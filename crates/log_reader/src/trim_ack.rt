//! The word of a shard replica that it gave up the bytes of a trim.

ghost use Rattle.std.specs.Prelude.{◌≡◌};
ghost use Rattle.lazy_msgs.specs.declared.msg.Msg.TheVariants.{TrimAck};
ghost use Rattle.lazy_msgs.specs.Step.{StepsTo};
ghost use Rattle.lazy_rules.specs.ReaderRules.{notes_trim, on_trim_ack, reader_took};
ghost use Rattle.lazy_rules.specs.Roles.{replicas_of};

use crate::nodes::{have_all, replicas};
use crate::reader::LogReader;
use crate::sends::one_event;
use crate::stage::Stage;
use crate::trimmer::Trimmer;
use lazy_msgs::{Outbox, StepRefused};
use plain_lists::Sequence;
use rec_id::Event;
use view_config::NodeList;

impl LogReader {
    /// The trim as it is now is over where all of these replicas, the shards', acknowledged it.
    fn note_trim(
        &mut self,
        trimmer: Trimmer,
        replicas: &NodeList,
        out: &mut Outbox,
    ) -> Result<(), StepRefused>
        requires { replicas.now ≡ replicas_of self.old.config }
        ensures { StepsTo (notes_trim self.old trimmer) self.old self.new out.old out.new result StepRefused.Over }
    {
        if !have_all(replicas.as_slice(), trimmer.acked.as_slice()) {
            self.stage = Stage::Trimming(trimmer);
            return Ok(());
        }
        let done = Event::TrimDone {
            client: self.client,
            read: trimmer.number,
            floor: trimmer.floor,
        };
        let events = one_event(self.alloc, done)?;
        self.turn(Stage::Idle, Sequence::new(self.alloc), events, out)
    }

    /// Takes one that isn't turned away.
    fn on_trim_ack(&mut self, sender: u32, number: u32, out: &mut Outbox) -> Result<(), StepRefused>
        ensures { StepsTo (on_trim_ack self.old sender number) self.old self.new out.old out.new result StepRefused.Over }
    {
        let Stage::Trimming(trimmer) = &self.stage else {
            return Ok(());
        };
        if trimmer.number != number {
            return Ok(());
        }
        let replicas = replicas(self.alloc, &self.config)?;
        if !replicas.as_slice().contains(&sender) {
            return Ok(());
        }
        let trimmer = trimmer.acked_by(sender)?;
        self.note_trim(trimmer, &replicas, out)
    }

    pub(crate) fn trim_ack(
        &mut self,
        sender: u32,
        number: u32,
        out: &mut Outbox,
    ) -> Result<(), StepRefused>
        ensures { StepsTo (reader_took self.old sender (TrimAck number)) self.old self.new out.old out.new result StepRefused.Over }
    {
        if self.shape.node(sender).is_none() {
            return Ok(());
        }
        self.on_trim_ack(sender, number, out)
    }
}
