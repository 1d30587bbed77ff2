//! How an unfinished append goes on: a node more acknowledges it, or it is finished.

ghost use Rattle.std.specs.Prelude.{◌≡◌, ℕ, OnOk, OnErr};
ghost use Rattle.lazy_msgs.specs.Step.{StepsTo};
ghost use Rattle.lazy_rules.specs.ClientState.{id_of, OpenAppend};
ghost use Rattle.lazy_rules.specs.ClientRules.{advances, is_complete, noted, notes};
ghost use Rattle.append_client.specs.Appends.{IsAt};
ghost use Rattle.append_client.specs.Endings.{ends, with_noted};

use crate::client::AppendClient;
use lazy_msgs::{Outbox, StepRefused};
use rec_id::{Event, RecordId};
use std::alloc::AllocError;

impl AppendClient {
    /// The append of this number is finished, and the client is told so.
    pub(crate) fn finish(
        &mut self,
        number: u32,
        event: Event,
        out: &mut Outbox,
    ) -> Result<(), StepRefused>
        ensures { (i : ℕ) (a : OpenAppend) → IsAt self.old.unfinished number i a → StepsTo (ends self.old i event) self.old self.new out.old out.new result StepRefused.Over }
    {
        out.tell(event)?;
        self.appends.finish(number);
        Ok(())
    }

    /// One node more acknowledged the append of this number.
    fn note(&mut self, number: u32, node: u32) -> Result<(), AllocError>
        ensures ok { (i : ℕ) (a : OpenAppend) → IsAt self.old.unfinished number i a → OnOk result (self.new ≡ with_noted self.old i a node) }
        ensures err { OnErr result (self.new ≡ self.old) }
    {
        self.appends.note(number, node)
    }

    /// One node more acknowledged the append with the identity `id`, which is finished where those are
    /// all.
    fn advance(
        &mut self,
        id: RecordId,
        node: u32,
        complete: bool,
        out: &mut Outbox,
    ) -> Result<(), StepRefused>
        requires { id ≡ id_of self.old id.number }
        ensures { (i : ℕ) (a : OpenAppend) → IsAt self.old.unfinished id.number i a → complete ≡ is_complete self.old (noted a node) → StepsTo (advances self.old i (noted a node)) self.old self.new out.old out.new result StepRefused.Over }
    {
        if complete {
            return self.finish(id.number(), Event::Acked(id), out);
        }
        self.note(id.number(), node)?;
        Ok(())
    }

    /// One node more acknowledged the append of this client with the identity `id`.
    pub(crate) fn acknowledged(
        &mut self,
        sender: u32,
        id: RecordId,
        out: &mut Outbox,
    ) -> Result<(), StepRefused>
        requires { id ≡ id_of self.old id.number }
        ensures { StepsTo (notes self.old sender id.number) self.old self.new out.old out.new result StepRefused.Over }
    {
        let Some(append) = self.appends.get(id.number()) else {
            return Ok(());
        };
        let complete = self.is_complete_with(id, append, sender);
        self.advance(id, sender, complete, out)
    }
}
