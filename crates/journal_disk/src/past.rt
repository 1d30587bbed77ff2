//! A file in memory, with the record of all that changed it.

ghost use Rattle.std.specs.Prelude.{◌≡◌, ◌+◌, ◌-◌, ◌<◌, ◌≤◌, ◌^◌, max, true, false, [], length, take, drop, OnOk, vec_len, vec_capacity, ◌++◌, ◌∷◌};
ghost use Rattle.journal_disk.specs.Disk.{with_bytes, room_after};
ghost use Rattle.journal_disk.specs.Past.{AreDoable, IsDoable, changed, count_of, deed_of, deeds_of, total, file_of, until_synced, after_deed, rewound};
ghost use Rattle.journal_disk.specs.Past.{Written, CutTo, Synced};

use std::alloc::{AllocError, Global};
use std::marker::Model;

/// A change of the file that took effect.
#[derive(Clone, Copy)]
pub(crate) enum Change {
    /// So many bytes were written at this offset.
    Write(u32, u32),
    /// The file was cut to this size.
    Cut(u32),
    Sync,
}

/// The file, all changes so far, and memory for more.
#[derive(Drop)]
pub(crate) struct Tape {
    past: Vec<Change>,
    /// The bytes of all writes, one after the other.
    bytes: Vec<u8>,
    /// The file is its first `len` bytes.
    buffer: Vec<u8>,
    len: usize,
    room_calls: u32,
    room_bytes: u32,
}

impl Model for Tape {
    ghost use Rattle.std.specs.Prelude.{vec_capacity};
    ghost use Rattle.journal_disk.specs.Past.{Taped};

    ghost Value = { Taped };

    ghost use Rattle.journal_disk.specs.Past.{IsTape, deeds_of};

    ghost view = { λ tape. record { past = deeds_of tape.past.items tape.bytes.items; room = record { calls = tape.room_calls; bytes = tape.room_bytes } } };

    ghost invariant = { λ tape. IsTape tape.past.items tape.bytes.items tape.buffer.items tape.len (record { calls = tape.room_calls; bytes = tape.room_bytes }) (vec_capacity tape.past) (vec_capacity tape.bytes) };
}

/// Writes `bytes` at `at` over a file, the first `len` bytes of `buffer`, and answers its length then.
fn write_over(buffer: &mut Vec<u8>, len: usize, at: usize, bytes: &[u8]) -> usize
    requires begins { at ≤ len }
    requires within { len ≤ length buffer.old.items }
    requires ends { at + length bytes.now ≤ length buffer.old.items }
    ensures size { result ≡ max len (at + length bytes.now) }
    ensures room { length buffer.new.items ≡ length buffer.old.items }
    ensures written { take result buffer.new.items ≡ with_bytes (take len buffer.old.items) at bytes.now }
{
    let end = at + bytes.len();
    buffer[at..end].copy_from_slice(bytes);
    len.max(end)
}

/// Puts a change behind the others.
fn push_change(past: &mut Vec<Change>, change: Change)
    requires { vec_len past.old < vec_capacity past.old }
    ensures items { past.new.items ≡ past.old.items ++ change ∷ [] }
    ensures room { vec_capacity past.old ≤ vec_capacity past.new }
{
    let Ok(()) = past.push(change) else {
        unreachable!()
    };
}

/// Puts bytes behind the others.
fn push_bytes(all: &mut Vec<u8>, bytes: &[u8])
    requires { vec_len all.old + length bytes.now ≤ vec_capacity all.old }
    ensures items { all.new.items ≡ all.old.items ++ bytes.now }
    ensures room { vec_capacity all.old ≤ vec_capacity all.new }
{
    let Ok(()) = all.extend_from_slice(bytes) else {
        unreachable!()
    };
}

/// Drops the last change with its bytes, unless it is a sync. Whether there was one is the answer.
fn drop_last(past: &mut Vec<Change>, bytes: &mut Vec<u8>) -> bool
    requires { total past.old.items ≡ length bytes.old.items }
    ensures left { until_synced (deeds_of past.new.items bytes.new.items) ≡ until_synced (deeds_of past.old.items bytes.old.items) }
    ensures bytes_are { total past.new.items ≡ length bytes.new.items }
    ensures past_room { vec_capacity past.old ≤ vec_capacity past.new }
    ensures bytes_room { vec_capacity bytes.old ≤ vec_capacity bytes.new }
    ensures fewer { length past.new.items ≤ length past.old.items }
    ensures shorter { length bytes.new.items ≤ length bytes.old.items }
    ensures dropped { result ≡ true → vec_len past.new < vec_len past.old }
    ensures none { result ≡ false → until_synced (deeds_of past.new.items bytes.new.items) ≡ deeds_of past.new.items bytes.new.items }
{
    match past.pop() {
        Some(Change::Write(_, count)) => {
            bytes.truncate(bytes.len() - count as usize);
            true
        }
        Some(Change::Cut(_)) => true,
        Some(Change::Sync) => {
            push_change(past, Change::Sync);
            false
        }
        None => false,
    }
}

/// Drops the changes behind the last sync, with their bytes.
fn drop_loose(past: &mut Vec<Change>, bytes: &mut Vec<u8>)
    requires { total past.old.items ≡ length bytes.old.items }
    ensures left { deeds_of past.new.items bytes.new.items ≡ until_synced (deeds_of past.old.items bytes.old.items) }
    ensures bytes_are { total past.new.items ≡ length bytes.new.items }
    ensures past_room { vec_capacity past.old ≤ vec_capacity past.new }
    ensures bytes_room { vec_capacity bytes.old ≤ vec_capacity bytes.new }
    ensures fewer { length past.new.items ≤ length past.old.items }
    ensures shorter { length bytes.new.items ≤ length bytes.old.items }
{
    let mut more = true;
    while more {
        more = drop_last(past, bytes);
    }
}

/// Does a change again, whose bytes are the first of `rest`, to a file of `len` bytes. Its length then
/// and the bytes that are left are the answer.
fn redo<'a>(change: Change, rest: &'a [u8], buffer: &mut Vec<u8>, len: usize) -> (usize, &'a [u8])
    requires there { count_of change ≤ length rest.now }
    requires doable { IsDoable (length buffer.old.items) (deed_of change rest.now) (take len buffer.old.items) }
    requires within { len ≤ length buffer.old.items }
    requires short { len < 2 ^ 32 }
    ensures file { take result.0 buffer.new.items ≡ changed (deed_of change rest.now) (take len buffer.old.items) }
    ensures rest { result.1.now ≡ drop (count_of change) rest.now }
    ensures within { result.0 ≤ length buffer.new.items }
    ensures short { result.0 < 2 ^ 32 }
    ensures room { length buffer.new.items ≡ length buffer.old.items }
{
    match change {
        Change::Write(at, count) => {
            let (front, behind) = rest.split_at(count as usize);
            (write_over(buffer, len, at as usize, front), behind)
        }
        Change::Cut(size) => (size as usize, rest),
        Change::Sync => (len, rest),
    }
}

/// Makes in `buffer` the file that the changes made, and answers its length.
fn replay(past: &[Change], bytes: &[u8], buffer: &mut Vec<u8>) -> usize
    requires bytes_are { total past.now ≡ length bytes.now }
    requires doable { AreDoable (length buffer.old.items) (deeds_of past.now bytes.now) [] }
    ensures file { take result buffer.new.items ≡ file_of (deeds_of past.now bytes.now) }
    ensures within { result ≤ length buffer.new.items }
    ensures short { result < 2 ^ 32 }
    ensures room { length buffer.new.items ≡ length buffer.old.items }
{
    let mut len = 0;
    let mut rest = bytes;
    for change in past {
        (len, rest) = redo(*change, rest, buffer, len);
    }
    len
}

impl Tape {
    /// The empty file, which nothing changed.
    pub(crate) fn new(alloc: Global) -> Tape
        ensures { result ≡ record { past = []; room = record { calls = 0; bytes = 0 } } }
    {
        Tape {
            past: Vec::new(alloc),
            bytes: Vec::new(alloc),
            buffer: Vec::new(alloc),
            len: 0,
            room_calls: 0,
            room_bytes: 0,
        }
    }

    pub(crate) fn as_slice(&self) -> &[u8]
        ensures file { result.now ≡ file_of self.now.past }
        ensures short { length result.now < 2 ^ 32 }
    {
        &self.buffer[..self.len]
    }

    /// Writes `bytes` at `at`.
    pub(crate) fn write(&mut self, at: u32, bytes: &[u8])
        requires begins { at ≤ length (file_of self.old.past) }
        requires ends { at + length bytes.now < 2 ^ 32 }
        requires call_room { 1 ≤ self.old.room.calls }
        requires byte_room { length bytes.now ≤ self.old.room.bytes }
        ensures { self.new ≡ after_deed self.old (Written at bytes.now) (length bytes.now) }
    {
        let count = bytes.len() as u32;
        self.len = write_over(&mut self.buffer, self.len, at as usize, bytes);
        push_bytes(&mut self.bytes, bytes);
        push_change(&mut self.past, Change::Write(at, count));
        self.room_calls -= 1;
        self.room_bytes -= count;
    }

    /// Cuts the file to `size` bytes.
    pub(crate) fn cut(&mut self, size: u32)
        requires within { size ≤ length (file_of self.old.past) }
        requires call_room { 1 ≤ self.old.room.calls }
        ensures { self.new ≡ after_deed self.old (CutTo size) 0 }
    {
        self.len = size as usize;
        push_change(&mut self.past, Change::Cut(size));
        self.room_calls -= 1;
    }

    pub(crate) fn sync(&mut self)
        requires { 1 ≤ self.old.room.calls }
        ensures { self.new ≡ after_deed self.old Synced 0 }
    {
        push_change(&mut self.past, Change::Sync);
        self.room_calls -= 1;
    }

    /// Uses up the room of a call that changes nothing.
    pub(crate) fn pass(&mut self, count: u32)
        requires call_room { 1 ≤ self.old.room.calls }
        requires byte_room { count ≤ self.old.room.bytes }
        ensures { self.new ≡ record self.old { room = room_after self.old.room count } }
    {
        self.room_calls -= 1;
        self.room_bytes -= count;
    }

    /// Makes room for so many calls and bytes, where there is less.
    pub(crate) fn reserve(&mut self, calls: u32, bytes: u32) -> Result<(), AllocError>
        ensures past { self.new.past ≡ self.old.past }
        ensures room_calls { OnOk result (calls ≤ self.new.room.calls) }
        ensures room_bytes { OnOk result (bytes ≤ self.new.room.bytes) }
    {
        let calls = calls.max(self.room_calls);
        let bytes = bytes.max(self.room_bytes);
        self.past.reserve(calls as usize)?;
        self.bytes.reserve(bytes as usize)?;
        make_room(&mut self.buffer, self.len, bytes as usize)?;
        self.room_calls = calls;
        self.room_bytes = bytes;
        Ok(())
    }

    /// Drops what wasn't synced.
    pub(crate) fn rewind(&mut self)
        ensures { self.new ≡ rewound self.old }
    {
        drop_loose(&mut self.past, &mut self.bytes);
        self.len = replay(&self.past, &self.bytes, &mut self.buffer);
        self.room_calls = 0;
        self.room_bytes = 0;
    }
}

/// Makes `buffer` longer by as much as it lacks for so many bytes behind the first `len`.
fn make_room(buffer: &mut Vec<u8>, len: usize, more: usize) -> Result<(), AllocError>
    requires { len ≤ length buffer.old.items }
    ensures same { take len buffer.new.items ≡ take len buffer.old.items }
    ensures grown { length buffer.old.items ≤ length buffer.new.items }
    ensures room { OnOk result (len + more ≤ length buffer.new.items) }
{
    let Some(needed) = len.checked_add(more) else {
        return Err(AllocError);
    };
    if needed > buffer.len() {
        buffer.resize(needed, 0)?;
    }
    Ok(())
}
