//! What a reader is at.

ghost use Rattle.std.specs.Prelude.{◌≡◌, IfOk};
ghost use Rattle.lazy_rules.specs.ReaderState.{outstanding, is_at_work};
ghost use Rattle.log_reader.specs.StageView.{stage_of, stage_with_part, stage_with_turn};

use crate::fetch::Fetch;
use crate::force::Force;
use crate::trimmer::Trimmer;
use rec_id::PlacedList;
use std::alloc::{AllocError, Global};

/// At most one read, or one trim in its place.
#[derive(Drop)]
pub(crate) enum Stage {
    Idle,
    Fetching(Fetch),
    Probing(Force),
    Trimming(Trimmer),
}

impl Stage {
    /// An equal stage.
    pub(crate) fn copy(&self, alloc: Global) -> Result<Stage, AllocError>
        ensures { IfOk result (λ made. made ≡ self.now) }
    {
        match self {
            Stage::Idle => Ok(Stage::Idle),
            Stage::Fetching(fetch) => Ok(Stage::Fetching(fetch.copy(alloc)?)),
            Stage::Probing(force) => Ok(Stage::Probing(force.copy()?)),
            Stage::Trimming(trimmer) => Ok(Stage::Trimming(trimmer.copy()?)),
        }
    }

    /// The number of the read or trim that isn't answered yet.
    pub(crate) fn outstanding(&self) -> Option<u32>
        ensures { result ≡ outstanding (stage_of self.now) }
    {
        match self {
            Stage::Idle => None,
            Stage::Fetching(fetch) => Some(fetch.number),
            Stage::Probing(force) => Some(force.number),
            Stage::Trimming(trimmer) => Some(trimmer.number),
        }
    }

    pub(crate) fn is_at_work(&self) -> bool
        ensures { result ≡ is_at_work (stage_of self.now) }
    {
        match self {
            Stage::Idle => false,
            Stage::Fetching(_) | Stage::Probing(_) | Stage::Trimming(_) => true,
        }
    }

    /// A read that is fetching was told this part.
    pub(crate) fn keep(&mut self, shard: usize, entries: PlacedList)
        ensures { stage_of self.new ≡ stage_with_part (stage_of self.old) shard entries }
    {
        match self {
            Stage::Fetching(fetch) => fetch.keep(shard, entries),
            Stage::Idle | Stage::Probing(_) | Stage::Trimming(_) => {}
        }
    }

    /// A read that is fetching asks once more, unless its turns are spent.
    pub(crate) fn take_turn(&mut self)
        ensures { stage_of self.new ≡ stage_with_turn (stage_of self.old) }
    {
        match self {
            Stage::Fetching(fetch) => {
                if fetch.turn < u32::MAX {
                    fetch.take_turn();
                }
            }
            Stage::Idle | Stage::Probing(_) | Stage::Trimming(_) => {}
        }
    }
}
