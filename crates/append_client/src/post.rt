//! An append begins: it gets the next number, and is sent.

ghost use Rattle.std.specs.Prelude.{◌≡◌, ◌≢◌, ◌+◌, ◌^◌, ◌<◌, [], length, IfOk, IfErr, IfNone, OnOk, None, Some, Err};
ghost use Rattle.lazy_msgs.specs.Step.{StepsTo};
ghost use Rattle.lazy_rules.specs.ClientState.{id_of};
ghost use Rattle.lazy_rules.specs.ClientRules.{begun, invokes, on_post, post_refusal, sending};

use crate::client::AppendClient;
use crate::sending::put_sending;
use lazy_msgs::{Outbox, PostRefused, SendList, StepRefused};
use plain_lists::Sequence;
use rec_id::{Bytes, Event, RecordId};
use std::alloc::AllocError;

impl AppendClient {
    /// Why an append of so many bytes is refused, `None` where it isn't.
    pub fn post_refusal(&self, size: usize) -> Option<PostRefused>
        ensures why { result ≡ post_refusal self.now size }
        ensures one_more { IfNone result (self.now.next + 1 < 2 ^ 32) }
    {
        if size > self.shape.edition.record_limit() {
            return Some(PostRefused::TooLong);
        }
        let next = self.appends.next();
        if next == u32::MAX {
            return Some(PostRefused::NumbersSpent);
        }
        let low = self.appends.lowest();
        if u64::from(low) + u64::from(self.shape.edition.window()) <= u64::from(next) {
            return Some(PostRefused::WindowFull(low));
        }
        None
    }

    /// The identity of the next append.
    fn next_id(&self) -> RecordId
        ensures { result ≡ id_of self.now self.now.next }
    {
        let Ok(id) = RecordId::new(self.client, self.appends.next()) else {
            unreachable!()
        };
        id
    }

    /// What is sent for the next append.
    fn sending_next(&self, id: RecordId, bytes: &Bytes) -> Result<SendList, AllocError>
        requires { id ≡ id_of self.now self.now.next }
        ensures { IfOk result (λ sends. sends ≡ sending self.now (begun self.now bytes.now)) }
    {
        let mut sends = Sequence::new(self.allocator());
        put_sending(&mut sends, &self.shape, &self.config, id, bytes, &[])?;
        Ok(sends)
    }

    /// Appends what isn't refused.
    fn invoke(&mut self, bytes: Bytes, out: &mut Outbox) -> Result<RecordId, PostRefused>
        requires { self.old.next + 1 < 2 ^ 32 }
        ensures id { IfOk result (λ id. id ≡ id_of self.old self.old.next) }
        ensures steps { StepsTo (invokes self.old bytes) self.old self.new out.old out.new result PostRefused.Over }
        ensures refused { IfErr result (λ e. e ≢ PostRefused.Over → e ≡ PostRefused.Memory) }
    {
        let id = self.next_id();
        let sends = self.sending_next(id, &bytes)?;
        let mut events = Sequence::new(self.allocator());
        events.push(Event::Invoke(id, bytes.clone()?))?;
        self.appends.reserve()?;
        out.put(sends, events)?;
        self.appends.push(bytes);
        Ok(id)
    }

    /// Appends `bytes`: gives the append the next number and sends it. Refused, nothing is
    /// changed.
    ///
    /// Refusals, in order: `TooLong` for more bytes than a record of the edition has, `NumbersSpent`
    /// where the next number is 2^32 - 1, `WindowFull` with the lowest unfinished number where that is a
    /// whole window below the next, `Over` where what is sent doesn't fit into `out`, and `Memory`.
    pub fn post(&mut self, bytes: Bytes, out: &mut Outbox) -> Result<RecordId, PostRefused>
        ensures id { IfOk result (λ id. id ≡ id_of self.old self.old.next) }
        ensures steps { StepsTo (invokes self.old bytes) self.old self.new out.old out.new result PostRefused.Over }
        ensures allowed { OnOk result (post_refusal self.old (length bytes) ≡ None) }
        ensures refused { IfErr result (λ e. e ≢ PostRefused.Over → e ≢ PostRefused.Memory → post_refusal self.old (length bytes) ≡ Some e) }
        ensures over_last { result ≡ Err PostRefused.Over → post_refusal self.old (length bytes) ≡ None }
    {
        if let Some(refused) = self.post_refusal(bytes.len()) {
            return Err(refused);
        }
        self.invoke(bytes, out)
    }

    /// The same as a step: a refusal of the post itself leaves all as it was.
    pub(crate) fn take_post(&mut self, bytes: &Bytes, out: &mut Outbox) -> Result<(), StepRefused>
        ensures { StepsTo (on_post self.old bytes.now) self.old self.new out.old out.new result StepRefused.Over }
    {
        if let Some(_) = self.post_refusal(bytes.len()) {
            return Ok(());
        }
        match self.invoke(bytes.clone()?, out) {
            Ok(_) => Ok(()),
            Err(PostRefused::Over) => Err(StepRefused::Over),
            Err(_) => Err(StepRefused::Memory),
        }
    }
}
