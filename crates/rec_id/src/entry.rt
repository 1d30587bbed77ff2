//! One place of the log.

ghost use Rattle.std.specs.Prelude.{◌≡◌, IfOk};

use crate::{Bytes, RecordId};
use std::alloc::AllocError;

/// What a place of the log has.
#[derive(Drop)]
pub enum Entry {
    /// The record with its bytes.
    Kept(RecordId, Bytes),
    /// The place of a record whose bytes never came in time. Its append was rejected.
    Noop(RecordId),
    /// A record whose bytes were given up.
    Gone(RecordId),
}

impl Clone for Entry {
    ghost is_clone = { λ a b. b ≡ a };

    fn clone(&self) -> Result<Self, AllocError> {
        match self {
            Entry::Kept(id, bytes) => Ok(Entry::Kept(*id, bytes.clone()?)),
            Entry::Noop(id) => Ok(Entry::Noop(*id)),
            Entry::Gone(id) => Ok(Entry::Gone(*id)),
        }
    }
}

impl Entry {
    /// An equal entry.
    pub fn copy(&self) -> Result<Entry, AllocError>
        ensures { IfOk result (λ made. made ≡ self.now) }
    {
        self.clone()
    }
}
