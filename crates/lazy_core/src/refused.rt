//! How an event is refused, where a node's own call refused so: for want of room it is spent.

ghost use Rattle.std.specs.Prelude.{◌≡◌};
ghost use Rattle.lazy_core.specs.EventRefusals.{event_begin_refused, event_suspect_refused, event_trim_refused};

use lazy_msgs::{BeginRefused, EventRefused, SuspectRefused, TrimRefused};

pub(crate) fn begin_refused(refused: BeginRefused) -> EventRefused
    ensures { result ≡ event_begin_refused refused }
{
    match refused {
        BeginRefused::Outstanding(number) => {
            EventRefused::Begin(BeginRefused::Outstanding(number))
        }
        BeginRefused::Backward => EventRefused::Begin(BeginRefused::Backward),
        BeginRefused::Wide => EventRefused::Begin(BeginRefused::Wide),
        BeginRefused::Over => EventRefused::Spent,
        BeginRefused::Memory => EventRefused::Memory,
    }
}

pub(crate) fn trim_refused(refused: TrimRefused) -> EventRefused
    ensures { result ≡ event_trim_refused refused }
{
    match refused {
        TrimRefused::Outstanding(number) => EventRefused::Trim(TrimRefused::Outstanding(number)),
        TrimRefused::Ahead(reach) => EventRefused::Trim(TrimRefused::Ahead(reach)),
        TrimRefused::Over => EventRefused::Spent,
        TrimRefused::Memory => EventRefused::Memory,
    }
}

pub(crate) fn suspect_refused(refused: SuspectRefused) -> EventRefused
    ensures { result ≡ event_suspect_refused refused }
{
    match refused {
        SuspectRefused::NotInView => EventRefused::Suspect(SuspectRefused::NotInView),
        SuspectRefused::LastSeq => EventRefused::Suspect(SuspectRefused::LastSeq),
        SuspectRefused::LastOfShard(shard) => {
            EventRefused::Suspect(SuspectRefused::LastOfShard(shard))
        }
        SuspectRefused::ViewsSpent => EventRefused::Suspect(SuspectRefused::ViewsSpent),
        SuspectRefused::Over => EventRefused::Spent,
        SuspectRefused::Memory => EventRefused::Memory,
    }
}
