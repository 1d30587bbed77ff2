//! A journal of stable entries.

ghost use Rattle.std.specs.Prelude.{◌≡◌, ◌≢◌, ◌↔◌, ◌⊎◌, ◌+◌, ◌-◌, ◌<◌, ◌≤◌, ◌^◌, min, false, true, ℕ, List, ◌∷◌, [], length, Ok, Err, IfOk, IfErr, OnOk, IsErr};
ghost use Rattle.io_edges.specs.Faults.{Rose};
ghost use Rattle.journal_disk.specs.Disk.{Only, AddsNothing};

use crate::block::{Block, can_keep};
use crate::framing::write_block;
use crate::limits::FILE_LIMIT;
use crate::opening::open_file;
use crate::scan::Found;
use crate::{Disk, JournalRefused, MemDisk};
use io_edges::Failed;
use journal_disk::put_behind;
use rec_id::PlacedList;
use shard_store::ShardStore;
use std::alloc::Global;
use std::marker::Model;

/// What a shard replica has as final, kept on a disk: all entries below a position.
///
/// A keep that meets a fault of the disk closes the journal. Its disk is then opened anew.
#[derive(Drop)]
pub struct Journal<D: Disk> {
    alloc: Global,
    disk: D,
    /// Below this position all is kept.
    kept: u32,
    /// The offset of the byte behind the last block.
    end: u32,
    closed: bool,
    /// What is being written.
    buffer: Vec<u8>,
}

impl<D: Disk> Model for Journal<D> {
    ghost use Rattle.shard_journal.specs.State.{JournalState};

    ghost Value = { JournalState D };

    ghost use Rattle.std.specs.Prelude.{◌≡◌, false};
    ghost use Rattle.shard_journal.specs.State.{IsSettled};

    ghost view = { λ journal. record { disk = journal.disk; kept = journal.kept; end = journal.end; closed = journal.closed } };

    ghost invariant = { λ journal. journal.closed ≡ false → IsSettled D.seen D.may_leave journal.disk journal.kept journal.end };
}

impl<D: Disk> Journal<D> {
    ghost use Rattle.shard_journal.specs.declared.block.Block.{Block as BlockValue};
    ghost use Rattle.shard_journal.specs.Blocks.{BlockFits, IsFile, IsDamaged, behind_form};
    ghost use Rattle.journal_disk.specs.Moments.{LeavesOnly, four_more};
    ghost use Rattle.shard_journal.specs.State.{Adds, Holds, IsReady, LeftByOpening, StopsOpening, CanKeep, IsSettled, Puts, disk_after, next_block, next_to, next_blocks, next_size};
    ghost use Rattle.journal_disk.specs.Calls.{Reaches};

    /// Opens the file of a disk, as a crash may have left it. The entries that it has are the answer. A
    /// file of fewer than two bytes has none, and becomes one byte 00.
    ///
    /// `DiskFault` is answered where a call of the disk failed, and `Damaged` with the offset where a block
    /// begins and isn't there. The disk is then handed back.
    pub fn open(alloc: Global, disk: D) -> Result<(Journal<D>, PlacedList), (JournalRefused, D)>
        ensures holds { IfOk result (λ opened. Holds (D.seen disk) opened.0.kept opened.1) }
        ensures ready { IfOk result (λ opened. IsReady (D.seen disk) (D.seen opened.0.disk)) }
        ensures open_ { IfOk result (λ opened. opened.0.closed ≡ false) }
        ensures durable { IfOk result (λ opened. Only (D.seen opened.0.disk) (D.may_leave opened.0.disk)) }

        // It answers `Damaged` exactly for a damaged file, faults and want of memory aside. No file that stands for
        // some blocks is one.
        ensures damaged { IfErr result (λ refused. (at : ℕ) → refused.0 ≡ JournalRefused.Damaged at → IsDamaged (D.seen disk) at) }
        ensures undamaged { (at : ℕ) → IsDamaged (D.seen disk) at → IsErr result }
        ensures file { (blocks : List BlockValue) (end : ℕ) → IsFile (D.seen disk) blocks end → IfErr result (λ refused. (at : ℕ) → refused.0 ≢ JournalRefused.Damaged at) }

        // A crash at any moment of the call leaves what one might have left before, or one file of fewer than two
        // bytes in place of another.
        ensures any_moment { LeavesOnly D.moment D.left_since disk (disk_after result) (LeftByOpening (D.may_leave disk) (D.seen disk)) }
        ensures reaches { Reaches D.made D.alike disk (disk_after result) }

        ensures fault { IfErr result (λ refused. refused.0 ≡ JournalRefused.DiskFault → Rose (D.faults disk) (D.faults refused.1)) }
        ensures only { IfErr result (λ refused. StopsOpening refused.0) }
    {
        let mut disk = disk;
        match open_file(alloc, &mut disk) {
            Ok(found) => {
                let Found { kept, end, entries } = found;
                let journal = Journal {
                    alloc,
                    disk,
                    kept,
                    end,
                    closed: false,
                    buffer: Vec::new(alloc),
                };
                Ok((journal, entries))
            }
            Err(refused) => Err((refused, disk)),
        }
    }

    /// Below which position all is kept. The file of a journal that isn't closed has it all, and will have
    /// after every crash.
    pub fn kept(&self) -> u32
        ensures kept { result ≡ self.now.kept }
        ensures settled { self.now.closed ≡ false → IsSettled D.seen D.may_leave self.now.disk self.now.kept self.now.end }
    {
        self.kept
    }

    /// Whether the next stable positions of a store can be kept: none of them was trimmed, the store has as
    /// final what is kept, and no data is longer than that of a record of edition One.
    pub fn can_keep(&self, store: &ShardStore) -> bool
        ensures can { result ≡ true → CanKeep store.now self.now.kept }
        ensures cannot { CanKeep store.now self.now.kept → result ≡ true }
    {
        can_keep(store, self.kept)
    }

    /// Adds a block.
    fn add(&mut self, block: Block) -> Result<u32, JournalRefused>
        requires open_ { self.old.closed ≡ false }
        requires fits { BlockFits block }
        requires from { block.from ≡ self.old.kept }
        ensures adds { Adds D.seen D.may_leave D.moment D.left_since self.old self.new (block ∷ []) block.to result }
        ensures not_closed { result ≢ Err JournalRefused.Closed }
        ensures full { result ≡ Err JournalRefused.Full → FILE_LIMIT < self.old.end + 2 + length (behind_form block) }
        ensures within { result ≢ Err JournalRefused.Full → result ≢ Err JournalRefused.Memory → self.old.end + 2 + length (behind_form block) ≤ FILE_LIMIT }
        ensures fault { result ≡ Err JournalRefused.DiskFault → Rose (D.faults self.old.disk) (D.faults self.new.disk) }
        ensures calls { OnOk result (D.calls self.new.disk ≡ four_more (D.calls self.old.disk)) }
        ensures no_call { result ≡ Err JournalRefused.Memory → D.calls self.new.disk ≡ D.calls self.old.disk }
        ensures puts { Puts D.made D.alike self.old self.new block result }
        ensures full_same { result ≡ Err JournalRefused.Full → self.new ≡ self.old }
        ensures fault_same { result ≡ Err JournalRefused.DiskFault → (self.new.kept ≡ self.old.kept) × (self.new.end ≡ self.old.end) }
        ensures undamaged { (at : ℕ) → result ≢ Err (JournalRefused.Damaged at) }
    {
        let to = block.to;
        write_block(self.alloc, block, &mut self.buffer)?;
        let count = self.buffer.len();
        if self.end as usize + 1 + count > FILE_LIMIT {
            return Err(JournalRefused::Full);
        }
        self.disk.reserve(4, count as u32 + 1)?;
        match put_behind(&mut self.disk, self.end, &self.buffer) {
            Ok(()) => {
                self.end += count as u32;
                self.kept = to;
                Ok(to)
            }
            Err(Failed) => {
                self.closed = true;
                Err(JournalRefused::DiskFault)
            }
        }
    }

    /// Keeps the next stable positions of a store, 256 at most, and answers up to which position all is kept
    /// then. With nothing new it does nothing. Once it has answered, every crash leaves a file that has all
    /// below that position.
    ///
    /// `Closed` is answered where an earlier keep of this journal met a fault, `Full` where the file would
    /// pass its limit, and `DiskFault` where a call of the disk failed, which closes the journal.
    pub fn keep(&mut self, store: &ShardStore) -> Result<u32, JournalRefused>
        requires { CanKeep store.now self.old.kept }

        ensures closed { (result ≡ Err JournalRefused.Closed) ↔ (self.old.closed ≡ true) }
        ensures left_closed { self.old.closed ≡ true → self.new ≡ self.old }
        ensures none { self.old.closed ≡ false → store.now.stable ≤ self.old.kept → (result ≡ Ok self.old.kept) × (self.new ≡ self.old) }
        ensures adds { self.old.closed ≡ false → Adds D.seen D.may_leave D.moment D.left_since self.old self.new (next_blocks store.now self.old.kept) (next_to store.now self.old.kept) result }

        ensures full { result ≡ Err JournalRefused.Full → FILE_LIMIT < next_size store.now self.old.kept self.old.end }
        ensures within { result ≢ Err JournalRefused.Full → result ≢ Err JournalRefused.Memory → self.old.closed ≡ false → self.old.kept < store.now.stable → next_size store.now self.old.kept self.old.end ≤ FILE_LIMIT }
        ensures fault { result ≡ Err JournalRefused.DiskFault → Rose (D.faults self.old.disk) (D.faults self.new.disk) }

        // A block takes four calls of the disk, and want of memory none.
        ensures calls { self.old.kept < store.now.stable → OnOk result (D.calls self.new.disk ≡ four_more (D.calls self.old.disk)) }
        ensures no_call { result ≡ Err JournalRefused.Memory → D.calls self.new.disk ≡ D.calls self.old.disk }
        ensures puts { self.old.closed ≡ false → self.old.kept < store.now.stable → Puts D.made D.alike self.old self.new (next_block store.now self.old.kept) result }
        ensures full_same { result ≡ Err JournalRefused.Full → self.new ≡ self.old }
        ensures fault_same { result ≡ Err JournalRefused.DiskFault → (self.new.kept ≡ self.old.kept) × (self.new.end ≡ self.old.end) }
        ensures undamaged { (at : ℕ) → result ≢ Err (JournalRefused.Damaged at) }
    {
        if self.closed {
            return Err(JournalRefused::Closed);
        }
        if self.kept >= store.stable() {
            return Ok(self.kept);
        }
        let block = Block::next(store, self.kept)?;
        self.add(block)
    }

    /// Lets the power go off and come on again, and hands the disk back.
    pub fn power_off(self) -> D
        ensures off { D.off self.disk result }
        ensures reads { D.may_leave self.disk (D.seen result) }
        ensures crash { AddsNothing (D.may_leave self.disk) (D.may_leave result) }
        ensures grows { D.faults self.disk ≤ D.faults result }
    {
        let Journal {
            alloc: _,
            mut disk,
            kept: _,
            end: _,
            closed: _,
            buffer: _,
        } = self;
        disk.power_off();
        disk
    }
}

impl Journal<MemDisk> {
    ghost use Rattle.std.specs.Prelude.{Some};
    ghost use Rattle.journal_disk.specs.Past.{file_of};

    /// The device call of this number, counted from 1 after this call, and all later ones fail, until the
    /// power goes off.
    pub fn stop_after(&mut self, calls: u32)
        requires { 1 ≤ calls }
        ensures { self.new ≡ record self.old { disk = record self.old.disk { meter = record self.old.disk.meter { stops_in = Some (calls - 1) } } } }
    {
        self.disk.stop_after(calls);
    }

    /// The bytes that the disk reads, without a device call.
    pub fn bytes(&self) -> &[u8]
        ensures { result.now ≡ file_of self.now.disk.tape.past }
    {
        self.disk.bytes()
    }
}
