//! Where an entry stands, with the key by which it is put in order.

ghost use Rattle.std.specs.Prelude.{◌≡◌, ◌<◌, ◌++◌, IfOk, OnOk, IsPermutation, IsSortedByKey, Some, length, slice_get};
ghost use Rattle.std.specs.Ordering.{nat_cmp};
ghost use Rattle.list_facts.specs.Lists.{Each};
ghost use Rattle.diary_laws.specs.Merges.{finds_none};
ghost use Rattle.diary_merge.specs.declared.place.Place.{Place};
ghost use Rattle.diary_merge.specs.Acts.{IsThere, act_from, acts_at, place_here, places_from, places_of, word_at};

use lazy_msgs::{Diary, DiaryEntry, DiaryList, Input};
use std::alloc::{AllocError, Global};

/// No node has a number of so much: a time and a node's number fit a word together.
pub const NODES: u64 = 512;

/// An entry of a diary, by the places of both, and its key.
#[derive(Clone, Copy)]
pub(crate) struct Place {
    pub(crate) key: u64,
    pub(crate) diary: usize,
    pub(crate) entry: usize,
}

/// The key of a step of this node at this time.
pub fn key_at(time: u64, node: u32) -> u64
    ensures { result ≡ word_at time node }
{
    NODES.saturating_mul(time).saturating_add(u64::from(node))
}

/// A peek that found no claim on the board.
pub fn finds_none(input: &Input) -> bool
    ensures { result ≡ finds_none input.now }
{
    match input {
        Input::Peek { stable, .. } => *stable == 0,
        Input::Take(_)
        | Input::Tick
        | Input::Grace
        | Input::Crash
        | Input::Post(_)
        | Input::Ask(_)
        | Input::Trim(_)
        | Input::Suspect(_) => false,
    }
}

/// Adds the place of an entry of this node, if it becomes an event.
fn add_place(
    node: u32,
    diary: usize,
    at: usize,
    entry: &DiaryEntry,
    places: &mut Vec<Place>,
) -> Result<(), AllocError>
    ensures { OnOk result (places.new.items ≡ places.old.items ++ place_here node diary at entry.now) }
{
    if finds_none(&entry.input) {
        return Ok(());
    }
    places.push(Place {
        key: key_at(entry.time, node),
        diary,
        entry: at,
    })?;
    Ok(())
}

/// Adds the places of the entries of one diary that become events.
fn add_places(diary: &Diary, number: usize, places: &mut Vec<Place>) -> Result<(), AllocError>
    ensures { OnOk result (places.new.items ≡ places.old.items ++ places_from diary.now.node number 0 diary.now.entries) }
{
    for i in 0..diary.entries.len() {
        let entry = diary.entries.at(i);
        add_place(diary.node, number, i, entry, places)?;
    }
    Ok(())
}

/// The places of all entries that become events, diary by diary.
fn all_places(alloc: Global, diaries: &DiaryList) -> Result<Vec<Place>, AllocError>
    ensures { IfOk result (λ places. places.items ≡ places_of 0 diaries.now) }
{
    let mut places = Vec::new(alloc);
    for number in 0..diaries.len() {
        let diary = diaries.at(number);
        add_places(diary, number, &mut places)?;
    }
    Ok(places)
}

/// The same in the order of (time, node).
pub(crate) fn places_in_order(alloc: Global, diaries: &DiaryList) -> Result<Vec<Place>, AllocError>
    ensures all { IfOk result (λ places. IsPermutation (places_of 0 diaries.now) places.items) }
    ensures ordered { IfOk result (λ places. IsSortedByKey (λ (place : Place). place.key) nat_cmp places.items) }
    ensures there { IfOk result (λ places. Each (IsThere diaries.now) places.items) }
{
    let mut places = all_places(alloc, diaries)?;
    places.sort_by_key(|place| place.key)?;
    Ok(places)
}

/// The entry at one of these places, with its node.
pub(crate) fn entry_at<'a>(
    diaries: &'a DiaryList,
    places: &[Place],
    i: usize,
) -> (u32, &'a DiaryEntry)
    requires there { Each (IsThere diaries.now) places.now }
    requires within { i < length places.now }
    ensures { slice_get (acts_at diaries.now places.now) i ≡ Some (act_from result.0 result.1.now) }
{
    let place = places[i];
    let diary = diaries.at(place.diary);
    let entry = diary.entries.at(place.entry);
    (diary.node, entry)
}
