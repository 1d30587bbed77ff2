//! The reads that wait, in the order in which they came, of each client one at most.

ghost use Rattle.std.specs.Prelude.{◌≡◌, ◌<◌, ◌≤◌, [], length, map, option_map, if◌then◌else◌, IfOk, not, nat_lt, ◌==◌, position, slice_get, Some};
ghost use Rattle.lazy_rules.specs.Flight.{has_probe_of, has_later_probe, with_probe, is_ready, ready, greatest, greatest_from};
ghost use Rattle.binder.specs.Binding.{probe_of, after_ready};

use crate::probe::Probe;
use std::alloc::{AllocError, Global};
use std::marker::Model;
use view_config::MAX_CLIENTS;

/// One of the reads.
#[derive(Drop)]
struct Read {
    client: u32,
    number: u32,
    target: u32,
}

impl Model for Read {
    ghost use Rattle.lazy_rules.specs.Flight.{Probe};

    ghost Value = { Probe };

    ghost view = { λ a. record { client = a.client; read = a.number; target = a.target } };
}

/// The reads. There is room for one of each client.
#[derive(Drop)]
pub(crate) struct Reads {
    waiting: Vec<Read>,
}

impl Model for Reads {
    ghost use Rattle.std.specs.Prelude.{List, vec_capacity};
    ghost use Rattle.lazy_rules.specs.Flight.{Probe};
    ghost use Rattle.view_config.specs.declared.limits.TheConstants.{MAX_CLIENTS};
    ghost use Rattle.binder.specs.Held.{IsRoster, clients};

    ghost Value = { List Probe };

    ghost view = { λ a. a.waiting.items };

    ghost invariant = { λ a. IsRoster MAX_CLIENTS (clients a.waiting.items) (vec_capacity a.waiting) };
}

impl Reads {
    pub(crate) fn new(alloc: Global) -> Result<Reads, AllocError>
        ensures { IfOk result (λ made. made ≡ []) }
    {
        Ok(Reads {
            waiting: Vec::with_capacity(alloc, MAX_CLIENTS as usize)?,
        })
    }

    pub(crate) fn is_empty(&self) -> bool
        ensures none { result ≡ not (nat_lt 0 (length self.now)) }
        ensures few { length self.now ≤ MAX_CLIENTS }
    {
        self.waiting.is_empty()
    }

    /// How many they are: one of each client at most.
    pub(crate) fn len(&self) -> u32
        ensures { result ≡ length self.now }
    {
        let _ = self.is_empty();
        self.waiting.len() as u32
    }

    /// Read `i`, counted from 0.
    pub(crate) fn at(&self, i: u32) -> Probe
        requires { i < length self.now }
        ensures { slice_get self.now i ≡ Some (probe_of result) }
    {
        let read = &self.waiting[i as usize];
        Probe {
            client: read.client,
            read: read.number,
            target: read.target,
        }
    }

    /// This read of the client waits, or a later one.
    pub(crate) fn has_later(&self, client: u32, number: u32) -> bool
        ensures { result ≡ has_later_probe self.now client number }
    {
        self.waiting
            .iter()
            .any(|read| read.client == client && number <= read.number)
    }

    fn waits(&self, client: u32) -> bool
        ensures { result ≡ has_probe_of self.now client }
    {
        self.waiting.iter().any(|read| read.client == client)
    }

    /// Puts a read in place of its client's, or last.
    fn put(&mut self, client: u32, number: u32, target: u32)
        requires { client < MAX_CLIENTS }
        ensures { self.new ≡ with_probe self.old (record { client = client; read = number; target = target }) }
    {
        if self.waits(client) {
            replace(&mut self.waiting, client, number, target);
        } else {
            self.waiting.push_reserved(Read {
                client,
                number,
                target,
            });
        }
    }

    /// Keeps a read in place of its client's older one, or last, and says whether. It isn't kept where
    /// the same read of the client or a later one waits.
    pub(crate) fn keep(&mut self, client: u32, number: u32, target: u32) -> bool
        requires { client < MAX_CLIENTS }
        ensures kept { result ≡ not (has_later_probe self.old client number) }
        ensures next { self.new ≡ (if has_later_probe self.old client number then self.old else with_probe self.old (record { client = client; read = number; target = target })) }
    {
        if self.has_later(client, number) {
            return false;
        }
        self.put(client, number, target);
        true
    }

    /// Where the first read stands that needn't wait.
    fn first_ready(&self, bound: u32) -> Option<usize>
        ensures { result ≡ position (is_ready bound) self.now }
    {
        self.waiting.iter().position(|read| read.target <= bound)
    }

    /// Takes out the first read that needn't wait any more where all positions below `bound` are
    /// bound.
    pub(crate) fn take_ready(&mut self, bound: u32) -> Option<Probe>
        ensures first { option_map probe_of result ≡ ready bound self.old }
        ensures next { self.new ≡ after_ready bound self.old }
    {
        match self.first_ready(bound) {
            Some(i) => {
                let read = self.waiting.remove(i);
                Some(Probe {
                    client: read.client,
                    read: read.number,
                    target: read.target,
                })
            }
            None => None,
        }
    }

    /// The greatest target.
    pub(crate) fn greatest(&self) -> Option<u32>
        ensures { result ≡ greatest self.now }
    {
        let (first, others) = self.waiting.split_first()?;
        Some(greatest_from(first.target, others))
    }
}

/// Puts a read in place of its client's.
fn replace(waiting: &mut [Read], client: u32, number: u32, target: u32)
    ensures { waiting.new ≡ map (λ other. if other.client == client then record { client = client; read = number; target = target } else other) waiting.old }
{
    if let Some((first, others)) = waiting.split_first_mut() {
        if first.client == client {
            first.number = number;
            first.target = target;
        }
        replace(others, client, number, target);
    }
}

/// The greatest of `target` and the reads' targets.
fn greatest_from(target: u32, waiting: &[Read]) -> u32
    ensures { result ≡ greatest_from target waiting.now }
{
    let mut greatest = target;
    for read in waiting {
        greatest = greatest.max(read.target);
    }
    greatest
}
