//! Reading a piece of a file.

ghost use Rattle.std.specs.Prelude.{◌≡◌, ◌⊎◌, ◌+◌, ◌≤◌, length, take, drop, OnOk, IfErr, IsErrOf};
ghost use Rattle.io_edges.specs.Faults.{Rose};
ghost use Rattle.lazy_msgs.specs.Frame.{four};
ghost use Rattle.journal_disk.specs.Calls.{Reaches};
ghost use Rattle.journal_disk.specs.Moments.{IsQuiet};

use crate::{Disk, JournalRefused};

/// The number that four bytes write, the highest first.
#[tactic(auto, unfolding(lazy_msgs::specs::Frame::four))]
pub(crate) fn number_in(bytes: &[u8; 4]) -> u32
    ensures { four result ≡ bytes.now }
{
    u32::from_be_bytes(*bytes)
}

/// Reads `count` bytes from `at` on, which are then what `buffer` has.
pub(crate) fn read_piece<D: Disk>(
    disk: &mut D,
    at: u32,
    count: usize,
    buffer: &mut Vec<u8>,
) -> Result<(), JournalRefused>
    requires { at + count ≤ length (D.seen disk.old) }
    ensures bytes { OnOk result (buffer.new.items ≡ take count (drop at (D.seen disk.old))) }
    ensures quiet { IsQuiet D.seen D.may_leave D.moment D.left_since disk.old disk.new }
    ensures reaches { Reaches D.made D.alike disk.old disk.new }
    ensures only { IfErr result (λ refused. (refused ≡ JournalRefused.DiskFault) ⊎ (refused ≡ JournalRefused.Memory)) }
    ensures fault { IsErrOf result JournalRefused.DiskFault → Rose (D.faults disk.old) (D.faults disk.new) }
    ensures grows { D.faults disk.old ≤ D.faults disk.new }
{
    buffer.resize(count, 0)?;
    disk.read(at, buffer)?;
    Ok(())
}
