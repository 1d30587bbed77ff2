//! A read that is fetching.

ghost use Rattle.std.specs.Prelude.{◌≡◌, ◌+◌, ◌^◌, ◌<◌, List, ℕ, length, replicate, slice_set, None, Some, IfOk};
ghost use Rattle.std.specs.List.{list_all};
ghost use Rattle.std.specs.Option.{is_some};
ghost use Rattle.rec_id.specs.History.{asked_from};
ghost use Rattle.rec_id.specs.declared.entry.Entry.{Entry as PlacedEntry};
ghost use Rattle.lazy_rules.specs.ReaderRules.{is_fetch_of, lacks_part, with_part, with_turn};

use rec_id::{Ask, PlacedList};
use std::alloc::{AllocError, Global};
use std::marker::Model;

/// A read that is fetching: its number and what it asks for, the end of what it wants, the tail where it
/// was forced, what each shard told it, and how often it asked again.
#[derive(Drop)]
pub(crate) struct Fetch {
    pub(crate) number: u32,
    pub(crate) ask: Ask,
    pub(crate) end: u32,
    pub(crate) tail: Option<u32>,
    pub(crate) parts: Vec<Option<PlacedList>>,
    pub(crate) turn: u32,
}

impl Model for Fetch {
    ghost use Rattle.lazy_rules.specs.ReaderState.{Fetch as Fetched};

    ghost Value = { Fetched };

    ghost view = { λ a. record { number = a.number; ask = a.ask; end = a.end; tail = a.tail; parts = a.parts.items; turn = a.turn } };
}

/// The place from which the ask wants entries.
pub(crate) fn asked_from(ask: Ask) -> u32
    ensures { result ≡ asked_from ask }
{
    match ask {
        Ask::Range { from, to: _ } => from,
        Ask::Tail { from } => from,
    }
}

/// No part of any of so many shards.
fn no_parts(alloc: Global, shards: u32) -> Result<Vec<Option<PlacedList>>, AllocError>
    ensures { IfOk result (λ parts. parts.items ≡ replicate shards None) }
{
    let mut parts = Vec::with_capacity(alloc, shards as usize)?;
    for _shard in 0..shards {
        parts.push(None)?;
    }
    Ok(parts)
}

/// An equal part.
fn copy_part(part: &Option<PlacedList>) -> Result<Option<PlacedList>, AllocError>
    ensures { IfOk result (λ made. made ≡ part.now) }
{
    match part {
        Some(entries) => Ok(Some(entries.copy()?)),
        None => Ok(None),
    }
}

/// Equal parts.
fn copy_parts(
    alloc: Global,
    parts: &[Option<PlacedList>],
) -> Result<Vec<Option<PlacedList>>, AllocError>
    ensures { IfOk result (λ made. made.items ≡ parts.now) }
{
    let mut made = Vec::with_capacity(alloc, parts.len())?;
    for part in parts {
        made.push(copy_part(part)?)?;
    }
    Ok(made)
}

/// All of these parts are there.
fn are_there(parts: &[Option<PlacedList>]) -> bool
    ensures { result ≡ list_all is_some parts.now }
{
    parts.iter().all(|part| part.is_some())
}

#[tactic(auto, using(crate::proofs::Gathered::all_with, std::proofs::lemmas::List::set_past))]
/// All of these parts are there but this one, which may be.
fn are_there_but(parts: &[Option<PlacedList>], shard: usize) -> bool
    ensures { (entries : List (ℕ × PlacedEntry)) → result ≡ list_all is_some (slice_set parts.now shard (Some entries)) }
{
    if shard >= parts.len() {
        return are_there(parts);
    }
    if !are_there(&parts[..shard]) {
        return false;
    }
    are_there(&parts[shard + 1..])
}

impl Fetch {
    /// A read that begins to fetch up to `end` from so many shards.
    pub(crate) fn new(
        alloc: Global,
        shards: u32,
        number: u32,
        ask: Ask,
        end: u32,
        tail: Option<u32>,
    ) -> Result<Fetch, AllocError>
        ensures { IfOk result (λ made. made ≡ record { number = number; ask = ask; end = end; tail = tail; parts = replicate shards None; turn = 0 }) }
    {
        Ok(Fetch {
            number,
            ask,
            end,
            tail,
            parts: no_parts(alloc, shards)?,
            turn: 0,
        })
    }

    /// An equal fetch.
    pub(crate) fn copy(&self, alloc: Global) -> Result<Fetch, AllocError>
        ensures { IfOk result (λ made. made ≡ self.now) }
    {
        Ok(Fetch {
            number: self.number,
            ask: self.ask,
            end: self.end,
            tail: self.tail,
            parts: copy_parts(alloc, self.parts.as_slice())?,
            turn: self.turn,
        })
    }

    /// The read has this number, and begins at this place.
    pub(crate) fn is_of(&self, number: u32, from: u32) -> bool
        ensures { result ≡ is_fetch_of self.now number from }
    {
        self.number == number && asked_from(self.ask) == from
    }

    /// The shard hasn't told its part.
    pub(crate) fn lacks(&self, shard: usize) -> bool
        ensures { result ≡ lacks_part self.now shard }
    {
        if shard < self.parts.len() {
            self.parts[shard].is_none()
        } else {
            true
        }
    }

    /// All shards but this one told their parts.
    pub(crate) fn is_last(&self, shard: usize) -> bool
        ensures { (entries : List (ℕ × PlacedEntry)) → result ≡ list_all is_some (with_part self.now shard entries).parts }
    {
        are_there_but(self.parts.as_slice(), shard)
    }

    /// The shard told this part.
    pub(crate) fn keep(&mut self, shard: usize, entries: PlacedList)
        ensures { self.new ≡ with_part self.old shard entries }
    {
        if shard < self.parts.len() {
            self.parts[shard] = Some(entries);
        }
    }

    /// It asks once more.
    pub(crate) fn take_turn(&mut self)
        requires { self.old.turn + 1 < 2 ^ 32 }
        ensures { self.new ≡ with_turn self.old }
    {
        self.turn += 1;
    }
}
