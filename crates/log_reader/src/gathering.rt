//! An answer put together from what the shards told: each entry goes to the slot of its place, so that
//! neither the order of the parts nor that of their entries costs anything.

ghost use Rattle.std.specs.Prelude.{◌≡◌, ◌++◌, ◌^◌, ◌<◌, ℕ, length, flat_map, replicate, slice_set, None, Some, IfOk, OnOk};
ghost use Rattle.std.specs.Option.{option_to_list};
ghost use Rattle.rec_id.specs.History.{asked_from, end_of};
ghost use Rattle.lazy_rules.specs.ReaderRules.{entries_in, with_part};
ghost use Rattle.log_reader.specs.Gathering.{Told, by_place, slots_with, told_by, with_entry};

use crate::fetch::{Fetch, asked_from};
use plain_lists::Sequence;
use rec_id::{Entry, Line, PlacedList};
use std::alloc::{AllocError, Global};

/// So many empty slots.
fn empty_slots(alloc: Global, count: u32) -> Result<Vec<Option<Entry>>, AllocError>
    ensures { IfOk result (λ slots. slots.items ≡ replicate count None) }
{
    let mut slots = Vec::with_capacity(alloc, count as usize)?;
    for _place in 0..count {
        slots.push(None)?;
    }
    Ok(slots)
}

/// Puts the entry into its slot, where it has one that is empty. The first slot is that of `from`.
fn put_entry(
    slots: &mut Vec<Option<Entry>>,
    from: u32,
    place: u32,
    entry: &Entry,
) -> Result<(), AllocError>
    ensures { OnOk result (slots.new.items ≡ with_entry slots.old.items from (place, entry.now)) }
{
    if place < from {
        return Ok(());
    }
    let i = (place - from) as usize;
    if i >= slots.len() {
        return Ok(());
    }
    if slots[i].is_none() {
        slots[i] = Some(entry.copy()?);
    }
    Ok(())
}

/// Puts the entries of a part into their slots.
fn put_part(
    slots: &mut Vec<Option<Entry>>,
    from: u32,
    part: &[(u32, Entry)],
) -> Result<(), AllocError>
    ensures { (told : Told) (n : ℕ) → slots.old.items ≡ by_place told from n → OnOk result (slots.new.items ≡ by_place (told ++ part.now) from n) }
{
    for placed in part {
        put_entry(slots, from, placed.0, &placed.1)?;
    }
    Ok(())
}

/// Appends the entry of a slot, if there is one.
fn push_slot(line: &mut Vec<Entry>, slot: Option<Entry>) -> Result<(), AllocError>
    ensures { OnOk result (line.new.items ≡ line.old.items ++ option_to_list slot) }
{
    match slot {
        Some(entry) => {
            line.push(entry)?;
            Ok(())
        }
        None => Ok(()),
    }
}

/// The entries of the slots that aren't empty.
fn line_of(alloc: Global, mut slots: Vec<Option<Entry>>) -> Result<Line, AllocError>
    ensures { IfOk result (λ line. line ≡ flat_map option_to_list slots.items) }
{
    let mut line = Vec::with_capacity(alloc, slots.len())?;
    for i in 0..slots.len() {
        let slot = slots[i].take();
        push_slot(&mut line, slot)?;
    }
    Ok(Sequence::from_vec(line))
}

impl Fetch {
    /// What a shard told, or the part of the shard `last`, which is told only now.
    fn told_by<'a>(
        &'a self,
        shard: usize,
        last: usize,
        entries: &'a PlacedList,
    ) -> &'a [(u32, Entry)]
        ensures { result.now ≡ told_by (with_part self.now last entries.now).parts shard }
    {
        if shard >= self.parts.len() {
            return &[];
        }
        if shard == last {
            return entries.as_slice();
        }
        match &self.parts[shard] {
            Some(part) => part.as_slice(),
            None => &[],
        }
    }

    /// Puts what all shards told into slots.
    fn put_all(
        &self,
        slots: &mut Vec<Option<Entry>>,
        last: usize,
        entries: &PlacedList,
    ) -> Result<(), AllocError>
        ensures { (n : ℕ) → slots.old.items ≡ replicate n None → OnOk result (slots.new.items ≡ slots_with self.now last entries.now n) }
    {
        let from = asked_from(self.ask);
        for shard in 0..self.parts.len() {
            put_part(slots, from, self.told_by(shard, last, entries))?;
        }
        Ok(())
    }

    /// The entries that the read wants, by place, once the shard `last` told this part.
    pub(crate) fn entries_with(
        &self,
        alloc: Global,
        last: usize,
        entries: &PlacedList,
    ) -> Result<Line, AllocError>
        ensures line { IfOk result (λ line. line ≡ entries_in (with_part self.now last entries.now).parts (asked_from self.now.ask) self.now.end) }
        ensures within { IfOk result (λ line. end_of (asked_from self.now.ask) line < 2 ^ 32) }
    {
        let count = self.end.saturating_sub(asked_from(self.ask));
        let mut slots = empty_slots(alloc, count)?;
        self.put_all(&mut slots, last, entries)?;
        let line = line_of(alloc, slots)?;
        Ok(line)
    }
}
