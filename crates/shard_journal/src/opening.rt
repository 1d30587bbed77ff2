//! Making a file ready, and finding what it has.

ghost use Rattle.std.specs.Prelude.{◌≡◌, ◌<◌, ◌≤◌, [], ◌∷◌, ℕ, length, Err, IfOk, OnOk, IfErr, IsErrOf};
ghost use Rattle.io_edges.specs.Faults.{Rose};
ghost use Rattle.journal_disk.specs.Calls.{Reaches};
ghost use Rattle.journal_disk.specs.Disk.{Only};
ghost use Rattle.shard_journal.specs.Blocks.{IsDamaged};
ghost use Rattle.shard_journal.specs.Reading.{IsFound};
ghost use Rattle.journal_disk.specs.Moments.{LeavesOnly, IsFew};
ghost use Rattle.shard_journal.specs.State.{LeftByOpening, IsReady, StopsOpening};

use crate::scan::{Found, scan};
use crate::{Disk, JournalRefused};
use journal_disk::start_over;
use std::alloc::Global;

/// Makes of a file of fewer than two bytes the file of a byte 00.
fn make_new<D: Disk>(alloc: Global, disk: &mut D) -> Result<Found, JournalRefused>
    requires few { length (D.seen disk.old) < 2 }
    requires durable { Only (D.seen disk.old) (D.may_leave disk.old) }
    requires call_room { 3 ≤ (D.room disk.old).calls }
    requires byte_room { 1 ≤ (D.room disk.old).bytes }
    ensures found { IfOk result (IsFound (D.seen disk.new)) }
    ensures reads { OnOk result (D.seen disk.new ≡ 0 ∷ []) }
    ensures durable { OnOk result (Only (D.seen disk.new) (D.may_leave disk.new)) }
    ensures undamaged { (at : ℕ) → result ≡ Err (JournalRefused.Damaged at) → IsDamaged (D.seen disk.old) at }
    ensures any_moment { LeavesOnly D.moment D.left_since disk.old disk.new (IsFew (D.seen disk.old)) }
    ensures reaches { Reaches D.made D.alike disk.old disk.new }
    ensures only { IfErr result StopsOpening }
    ensures fault { IsErrOf result JournalRefused.DiskFault → Rose (D.faults disk.old) (D.faults disk.new) }
    ensures grows { D.faults disk.old ≤ D.faults disk.new }
{
    start_over(disk)?;
    Ok(Found::new(alloc))
}

/// Makes the file ready, and finds its blocks.
pub(crate) fn open_file<D: Disk>(alloc: Global, disk: &mut D) -> Result<Found, JournalRefused>
    ensures found { IfOk result (IsFound (D.seen disk.new)) }
    ensures ready { OnOk result (IsReady (D.seen disk.old) (D.seen disk.new)) }
    ensures durable { OnOk result (Only (D.seen disk.new) (D.may_leave disk.new)) }
    ensures damaged { (at : ℕ) → result ≡ Err (JournalRefused.Damaged at) → IsDamaged (D.seen disk.old) at }
    ensures any_moment { LeavesOnly D.moment D.left_since disk.old disk.new (LeftByOpening (D.may_leave disk.old) (D.seen disk.old)) }
    ensures reaches { Reaches D.made D.alike disk.old disk.new }
    ensures only { IfErr result StopsOpening }
    ensures fault { IsErrOf result JournalRefused.DiskFault → Rose (D.faults disk.old) (D.faults disk.new) }
{
    disk.reserve(4, 1)?;
    disk.sync()?;
    let size = disk.size()?;
    if size < 2 {
        return make_new(alloc, disk);
    }
    scan(alloc, disk, size)
}
