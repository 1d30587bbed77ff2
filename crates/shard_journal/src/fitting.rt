//! That entries fit into a block. Nothing is done here.

ghost use Rattle.std.specs.List.{AllByRecursion};
ghost use Rattle.view_config.specs.declared.edition.Edition.TheVariants.{One};
ghost use Rattle.rec_id.specs.Identity.{IsIdentity};
ghost use Rattle.lazy_msgs.specs.FrameLimits.{PlacedFits};
ghost use Rattle.shard_journal.specs.State.{EntryIsShort};

use rec_id::{Entry, PlacedList, RecordId};

/// An identity is in its limits.
fn know_id(id: RecordId)
    ensures { IsIdentity id }
{
    let _client = id.client();
    let _number = id.number();
}

/// An entry whose data is short enough fits.
fn know_fit(placed: &(u32, Entry))
    requires { EntryIsShort placed.now }
    ensures { PlacedFits One placed.now }
{
    let _place = placed.0;
    match &placed.1 {
        Entry::Kept(id, _) => know_id(*id),
        Entry::Noop(id) => know_id(*id),
        Entry::Gone(id) => know_id(*id),
    }
}

/// Entries whose data is short enough fit.
pub(crate) fn know_fits(entries: &PlacedList)
    requires { AllByRecursion EntryIsShort entries.now }
    ensures { AllByRecursion (PlacedFits One) entries.now }
{
    for placed in entries.as_slice() {
        know_fit(placed);
    }
}
