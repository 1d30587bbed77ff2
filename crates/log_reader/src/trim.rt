//! A trim begins: it gets the next number, and is sent to all shard replicas.

ghost use Rattle.std.specs.Prelude.{◌≡◌, ◌≢◌, ◌+◌, ◌^◌, ◌<◌, IfOk, IfErr, OnOk, None, Some, Err};
ghost use Rattle.lazy_msgs.specs.Step.{StepsTo};
ghost use Rattle.lazy_rules.specs.ReaderRules.{begins_trim, on_trim_input, trim_refusal};

use crate::nodes::replicas;
use crate::reader::LogReader;
use crate::sends::{one_event, trims};
use crate::stage::Stage;
use crate::trimmer::Trimmer;
use lazy_msgs::{Outbox, StepRefused, TrimRefused};
use rec_id::Event;
use view_config::Edition;

impl LogReader {
    /// Why a trim is refused, `None` where it isn't.
    fn trim_refusal(&self, floor: u32) -> Option<TrimRefused>
        ensures { result ≡ trim_refusal self.now floor }
    {
        match self.stage.outstanding() {
            Some(number) => Some(TrimRefused::Outstanding(number)),
            None => {
                if self.reach < floor {
                    return Some(TrimRefused::Ahead(self.reach));
                }
                None
            }
        }
    }

    /// Begins a trim that isn't refused.
    fn begin_trim(&mut self, floor: u32, out: &mut Outbox) -> Result<(), StepRefused>
        requires { self.old.count + 1 < 2 ^ 32 }
        ensures { StepsTo (begins_trim self.old floor) self.old self.new out.old out.new result StepRefused.Over }
    {
        let number = self.count + 1;
        let replicas = replicas(self.alloc, &self.config)?;
        let sends = trims(self.alloc, replicas.as_slice(), number, floor)?;
        let begun = Event::TrimAsk {
            client: self.client,
            read: number,
            floor,
        };
        let events = one_event(self.alloc, begun)?;
        let trimmer = Trimmer::new(self.alloc, number, floor);
        self.begin_at(Stage::Trimming(trimmer), sends, events, out)
    }

    /// Gives up the bytes of the places below `floor`, and gives the trim's number, which is of the
    /// same count as those of reads. Refused, nothing is changed.
    ///
    /// Refusals, in order: `Outstanding` with the number of the read or trim that isn't answered yet,
    /// `Ahead` with how far the answers of this client reached where that is below the floor, `Over`
    /// where what is sent doesn't fit into `out`, and `Memory`.
    pub fn trim(&mut self, floor: u32, out: &mut Outbox) -> Result<u32, TrimRefused>
        requires number { self.old.count + 1 < 2 ^ 32 }
        requires edition { self.old.shape.edition ≡ Edition.Two }
        ensures number { IfOk result (λ number. number ≡ self.old.count + 1) }
        ensures steps { StepsTo (begins_trim self.old floor) self.old self.new out.old out.new result TrimRefused.Over }
        ensures allowed { OnOk result (trim_refusal self.old floor ≡ None) }
        ensures refused { IfErr result (λ e. e ≢ TrimRefused.Over → e ≢ TrimRefused.Memory → trim_refusal self.old floor ≡ Some e) }
        ensures over_last { result ≡ Err TrimRefused.Over → trim_refusal self.old floor ≡ None }
    {
        if let Some(refused) = self.trim_refusal(floor) {
            return Err(refused);
        }
        let number = self.count + 1;
        match self.begin_trim(floor, out) {
            Ok(()) => Ok(number),
            Err(StepRefused::Over) => Err(TrimRefused::Over),
            Err(StepRefused::Memory) => Err(TrimRefused::Memory),
        }
    }

    /// The same as a step: a refusal of the trim itself leaves all as it was, and edition One has none.
    pub(crate) fn take_trim(&mut self, floor: u32, out: &mut Outbox) -> Result<(), StepRefused>
        ensures { StepsTo (on_trim_input self.old floor) self.old self.new out.old out.new result StepRefused.Over }
    {
        match self.shape.edition {
            Edition::One => Ok(()),
            Edition::Two => {
                if self.trim_refusal(floor).is_some() {
                    return Ok(());
                }
                if self.count == u32::MAX {
                    return Ok(());
                }
                self.begin_trim(floor, out)
            }
        }
    }
}
