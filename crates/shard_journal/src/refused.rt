//! Why a journal kept nothing, or wasn't opened.

ghost use Rattle.std.specs.Prelude.{◌≡◌};

use io_edges::Failed;
use std::alloc::{AllocError, AllocFailed};

/// Why a journal kept nothing, or wasn't opened.
#[derive(Clone, Copy, Debug, PartialEq, Eq)]
pub enum JournalRefused {
    /// An earlier keep of this journal met a fault of its disk.
    Closed,
    /// The file would have more bytes than it may.
    Full,
    /// A call of the disk failed.
    DiskFault,
    /// A block begins at this offset of the file, and isn't there.
    Damaged(u32),
    Memory,
}

impl From<AllocError> for JournalRefused {
    ghost use Rattle.shard_journal.specs.declared.refused.JournalRefused.TheVariants.{Memory};

    ghost from_gives = { λ _ e. e ≡ Memory };

    fn from(_error: AllocError) -> JournalRefused {
        JournalRefused::Memory
    }
}

impl<T: Drop> From<AllocFailed<T>> for JournalRefused {
    ghost use Rattle.shard_journal.specs.declared.refused.JournalRefused.TheVariants.{Memory};

    ghost from_gives = { λ _ e. e ≡ Memory };

    fn from(_error: AllocFailed<T>) -> JournalRefused {
        JournalRefused::Memory
    }
}

impl From<Failed> for JournalRefused {
    ghost use Rattle.shard_journal.specs.declared.refused.JournalRefused.TheVariants.{DiskFault};

    ghost from_gives = { λ _ e. e ≡ DiskFault };

    fn from(_failed: Failed) -> JournalRefused {
        JournalRefused::DiskFault
    }
}
