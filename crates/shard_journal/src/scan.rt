//! One pass over a file, which finds its blocks.

ghost use Rattle.std.specs.Prelude.{◌≡◌, ◌+◌, ◌<◌, ◌≤◌, ◌^◌, ◌∷◌, ℕ, [], length, take, drop, Err, IfOk, IfErr, IsErrOf};
ghost use Rattle.io_edges.specs.Faults.{Rose};
ghost use Rattle.shard_journal.specs.Blocks.{IsDamaged, NoBlock};
ghost use Rattle.shard_journal.specs.Reading.{IsFound, ReadOn};
ghost use Rattle.journal_disk.specs.Calls.{Reaches};
ghost use Rattle.journal_disk.specs.Moments.{IsQuiet};
ghost use Rattle.shard_journal.specs.State.{StopsOpening};

use crate::block::Block;
use crate::framing::read_block;
use crate::pieces::{number_in, read_piece};
use crate::{Disk, JournalRefused};
use plain_lists::Sequence;
use rec_id::PlacedList;
use std::alloc::Global;

/// What was found so far: up to which position, from which offset on the file goes on, and the
/// entries.
#[derive(Drop)]
pub(crate) struct Found {
    pub(crate) kept: u32,
    pub(crate) end: u32,
    pub(crate) entries: PlacedList,
}

impl Found {
    /// Nothing was found yet.
    pub(crate) fn new(alloc: Global) -> Found
        ensures { result ≡ record { kept = 0; end = 0; entries = [] } }
    {
        Found {
            kept: 0,
            end: 0,
            entries: Sequence::new(alloc),
        }
    }
}

/// The first `count` bytes.
fn front(bytes: &[u8], count: usize) -> &[u8]
    requires { count ≤ length bytes.now }
    ensures { result.now ≡ take count bytes.now }
{
    &bytes[..count]
}

/// Reads the block whose first byte, 01, stands where the file goes on. The byte behind it is the
/// answer. What the buffers have is overwritten.
fn read_next<D: Disk>(
    alloc: Global,
    disk: &mut D,
    size: u32,
    found: &mut Found,
    body: &mut Vec<u8>,
    framed: &mut Vec<u8>,
) -> Result<u8, JournalRefused>
    requires size { size ≡ length (D.seen disk.old) }
    requires within { found.old.end < size }
    ensures read { IfOk result (ReadOn (D.seen disk.old) found.old found.new) }
    ensures damaged { (at : ℕ) → result ≡ Err (JournalRefused.Damaged at) → (at ≡ found.old.end) × NoBlock found.old.kept (drop (found.old.end + 1) (D.seen disk.old)) }
    ensures quiet { IsQuiet D.seen D.may_leave D.moment D.left_since disk.old disk.new }
    ensures reaches { Reaches D.made D.alike disk.old disk.new }
    ensures only { IfErr result StopsOpening }
    ensures fault { IsErrOf result JournalRefused.DiskFault → Rose (D.faults disk.old) (D.faults disk.new) }
    ensures grows { D.faults disk.old ≤ D.faults disk.new }
{
    let at = found.end;
    let left = size - at;
    if left <= 5 {
        return Err(JournalRefused::Damaged(at));
    }
    let mut length = [0u8; 4];
    disk.read(at + 1, &mut length)?;
    let count = number_in(&length);
    if count >= left - 5 {
        return Err(JournalRefused::Damaged(at));
    }
    let len = count as usize;
    read_piece(disk, at + 5, len + 1, body)?;
    let flag = body[len];
    match read_block(alloc, found.kept, front(body, len), framed)? {
        Some(block) => {
            let Block {
                from: _,
                to,
                entries,
            } = block;
            found.entries.append(entries)?;
            found.kept = to;
            found.end = at + 5 + count;
            Ok(flag)
        }
        None => Err(JournalRefused::Damaged(at)),
    }
}

/// Finds the blocks of a file of `size` bytes.
pub(crate) fn scan<D: Disk>(alloc: Global, disk: &mut D, size: u32) -> Result<Found, JournalRefused>
    requires size { size ≡ length (D.seen disk.old) }
    requires many { 2 ≤ size }
    ensures found { IfOk result (IsFound (D.seen disk.old)) }
    ensures damaged { (at : ℕ) → result ≡ Err (JournalRefused.Damaged at) → IsDamaged (D.seen disk.old) at }
    ensures quiet { IsQuiet D.seen D.may_leave D.moment D.left_since disk.old disk.new }
    ensures reaches { Reaches D.made D.alike disk.old disk.new }
    ensures only { IfErr result StopsOpening }
    ensures fault { IsErrOf result JournalRefused.DiskFault → Rose (D.faults disk.old) (D.faults disk.new) }
    ensures grows { D.faults disk.old ≤ D.faults disk.new }
{
    let mut found = Found::new(alloc);
    let mut body = Vec::new(alloc);
    let mut framed = Vec::new(alloc);
    let mut first = [0u8; 1];
    disk.read(0, &mut first)?;
    let mut flag = first[0];
    while flag == 1 {
        flag = read_next(alloc, disk, size, &mut found, &mut body, &mut framed)?;
    }
    Ok(found)
}
