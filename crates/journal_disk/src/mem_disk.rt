//! A disk in memory, whose calls can be made to fail.

ghost use Rattle.std.specs.Prelude.{◌≡◌, ◌-◌, ◌≤◌, ◌↔◌, [], true, length, Some, IfOk, IsErr};
ghost use Rattle.journal_disk.specs.Past.{after_change, after_off, file_of};
ghost use Rattle.journal_disk.specs.Past.{Written, CutTo, Synced};
ghost use Rattle.journal_disk.specs.Meter.{unmetered, fails_next, after_call};

use crate::Disk;
use crate::meter::Meter;
use crate::past::Tape;
use io_edges::Failed;
use std::alloc::{AllocError, Global};
use std::marker::Model;

/// A file in memory, with the record of its writes, cuts and syncs. A device call that fails changes
/// nothing of what it reads. When its power goes off it drops all writes and cuts since the last sync
/// that succeeded.
#[derive(Drop)]
pub struct MemDisk {
    tape: Tape,
    meter: Meter,
}

impl Model for MemDisk {
    ghost use Rattle.journal_disk.specs.Past.{Memory};

    ghost Value = { Memory };

    ghost view = { λ disk. record { tape = disk.tape; meter = disk.meter } };
}

impl MemDisk {
    /// A disk with the empty file, whose device calls with the numbers `fails`, from 1, are to fail.
    pub fn new(alloc: Global, fails: &[u64]) -> Result<MemDisk, AllocError>
        ensures { IfOk result (λ disk. disk ≡ record { tape = record { past = []; room = record { calls = 0; bytes = 0 } }; meter = unmetered fails.now }) }
    {
        Ok(MemDisk {
            tape: Tape::new(alloc),
            meter: Meter::new(alloc, fails)?,
        })
    }

    /// The device call of this number, counted from 1 after this call, and all later ones fail, until the
    /// power goes off.
    pub fn stop_after(&mut self, calls: u32)
        requires { 1 ≤ calls }
        ensures { self.new ≡ record self.old { meter = record self.old.meter { stops_in = Some (calls - 1) } } }
    {
        self.meter.stop_after(calls);
    }

    /// The bytes that the disk reads, without a device call.
    pub fn bytes(&self) -> &[u8]
        ensures { result.now ≡ file_of self.now.tape.past }
    {
        self.tape.as_slice()
    }
}

impl Disk for MemDisk {
    ghost use Rattle.journal_disk.specs.Past.{LeftBy, LeftSince, left_now, only_left, reads_file};
    ghost use Rattle.journal_disk.specs.Drive.{MemAlike, MemMakes};

    ghost seen = { λ disk. file_of disk.tape.past };

    ghost may_leave = { λ disk file. LeftBy disk.tape.past file };

    ghost moment = { λ disk. length disk.tape.past };

    ghost left_since = { λ disk t file. LeftSince disk.tape.past t file };

    ghost calls = { λ disk. disk.meter.made };

    ghost faults = { λ disk. disk.meter.faults };

    ghost room = { λ disk. disk.tape.room };

    ghost off = { λ disk now. now ≡ after_off disk };

    ghost made = { λ disk call ok now. MemMakes disk call ok now };

    ghost alike = { λ disk other. MemAlike disk other };

    ghost reads_one = { λ disk. reads_file disk.tape.past };

    ghost counts_now = { λ disk t file le left. left_now disk.tape.past t file le left };

    ghost only_now = { λ disk file left. only_left disk.tape.past file left };

    fn size(&mut self) -> Result<u32, Failed> {
        self.meter.count()?;
        Ok(self.tape.as_slice().len() as u32)
    }

    fn read(&mut self, at: u32, buf: &mut [u8]) -> Result<(), Failed> {
        self.meter.count()?;
        let at = at as usize;
        buf.copy_from_slice(&self.tape.as_slice()[at..at + buf.len()]);
        Ok(())
    }

    fn write_at(&mut self, at: u32, bytes: &[u8]) -> Result<(), Failed> {
        match self.meter.count() {
            Ok(()) => {
                self.tape.write(at, bytes);
                Ok(())
            }
            Err(failed) => {
                self.tape.pass(bytes.len() as u32);
                Err(failed)
            }
        }
    }

    fn cut(&mut self, size: u32) -> Result<(), Failed> {
        match self.meter.count() {
            Ok(()) => {
                self.tape.cut(size);
                Ok(())
            }
            Err(failed) => {
                self.tape.pass(0);
                Err(failed)
            }
        }
    }

    fn sync(&mut self) -> Result<(), Failed> {
        match self.meter.count() {
            Ok(()) => {
                self.tape.sync();
                Ok(())
            }
            Err(failed) => {
                self.tape.pass(0);
                Err(failed)
            }
        }
    }

    fn reserve(&mut self, more_calls: u32, more_bytes: u32) -> Result<(), AllocError> {
        self.tape.reserve(more_calls, more_bytes)
    }

    fn power_off(&mut self) {
        self.tape.rewind();
        self.meter.go_on();
    }
}
