//! Calls of a disk in an order in which a crash does no harm.

ghost use Rattle.std.specs.Prelude.{◌≡◌, ◌+◌, ◌<◌, ◌≤◌, ◌^◌, [], ◌∷◌, length, OnOk, OnErr};
ghost use Rattle.io_edges.specs.Faults.{Rose};
ghost use Rattle.journal_disk.specs.Calls.{DoesAll, put_calls, start_calls};
ghost use Rattle.journal_disk.specs.Disk.{Only};
ghost use Rattle.journal_disk.specs.Moments.{LeavesOnly, IsStagedOrWritten, opened, IsFew, three_more, four_more};

use crate::Disk;
use io_edges::Failed;

/// Writes `bytes` behind the byte at `end`, and then 01 over that byte, each to the disk. At any moment a
/// crash leaves either the file up to that byte as it was, or all but that byte as it is to be.
pub fn put_behind<D: Disk>(disk: &mut D, end: u32, bytes: &[u8]) -> Result<(), Failed>
    requires within { end < length (D.seen disk.old) }
    requires fits { end + 1 + length bytes.now < 2 ^ 32 }
    requires durable { Only (D.seen disk.old) (D.may_leave disk.old) }
    requires call_room { 4 ≤ (D.room disk.old).calls }
    requires byte_room { length bytes.now + 1 ≤ (D.room disk.old).bytes }
    ensures reads { OnOk result (D.seen disk.new ≡ opened (D.seen disk.old) end bytes.now) }
    ensures durable { OnOk result (Only (D.seen disk.new) (D.may_leave disk.new)) }
    ensures any_moment { LeavesOnly D.moment D.left_since disk.old disk.new (IsStagedOrWritten (D.seen disk.old) end bytes.now) }
    ensures makes { DoesAll D.made (put_calls end bytes.now) disk.old disk.new result }
    ensures calls { OnOk result (D.calls disk.new ≡ four_more (D.calls disk.old)) }
    ensures fault { OnErr result (Rose (D.faults disk.old) (D.faults disk.new)) }
    ensures grows { D.faults disk.old ≤ D.faults disk.new }
{
    disk.write_at(end + 1, bytes)?;
    // What was written has to last before the byte is, since with that byte it counts.
    disk.sync()?;
    disk.write_at(end, &[1])?;
    disk.sync()
}

/// Makes of a file of fewer than two bytes the file of one byte 00. At any moment a crash leaves one of
/// fewer than two bytes.
pub fn start_over<D: Disk>(disk: &mut D) -> Result<(), Failed>
    requires few { length (D.seen disk.old) < 2 }
    requires durable { Only (D.seen disk.old) (D.may_leave disk.old) }
    requires call_room { 3 ≤ (D.room disk.old).calls }
    requires byte_room { 1 ≤ (D.room disk.old).bytes }
    ensures reads { OnOk result (D.seen disk.new ≡ 0 ∷ []) }
    ensures durable { OnOk result (Only (D.seen disk.new) (D.may_leave disk.new)) }
    ensures any_moment { LeavesOnly D.moment D.left_since disk.old disk.new (IsFew (D.seen disk.old)) }
    ensures makes { DoesAll D.made start_calls disk.old disk.new result }
    ensures calls { OnOk result (D.calls disk.new ≡ three_more (D.calls disk.old)) }
    ensures fault { OnErr result (Rose (D.faults disk.old) (D.faults disk.new)) }
    ensures grows { D.faults disk.old ≤ D.faults disk.new }
{
    disk.cut(0)?;
    disk.write_at(0, &[0])?;
    disk.sync()
}
