//! Items in a ring, with their packed identities in another beside them.

ghost use Rattle.std.specs.Prelude.{◌≡◌, ◌+◌, ◌-◌, ◌++◌, [], ◌∷◌, ◌<◌, ◌≤◌, drop, take, length, slice_get, position, Some, IfOk};

use crate::pieces::find_in_pieces;
use rec_id::{Item, RecordId};
use std::alloc::{AllocError, Global};
use std::collections::VecDeque;
use std::marker::Model;

#[derive(Drop)]
pub(crate) struct Ring {
    items: VecDeque<Item>,
    words: VecDeque<u64>,
}

impl Model for Ring {
    ghost use Rattle.pending_log.specs.Pending.{Pending};

    ghost Value = { Pending };

    ghost use Rattle.std.specs.VecDeque.{deque_capacity};
    ghost use Rattle.pending_log.specs.Kept.{IsKept};

    ghost view = { λ ring. record { items = ring.items.items; capacity = deque_capacity ring.items } };

    ghost invariant = { λ ring. IsKept ring.items.items ring.words.items (deque_capacity ring.items) (deque_capacity ring.words) };
}

impl Ring {
    ghost use Rattle.pending_log.specs.Pending.{Pending};
    ghost use Rattle.rec_id.specs.Identity.{same_id};

    pub(crate) fn with_capacity(alloc: Global, capacity: usize) -> Result<Ring, AllocError>
        ensures { IfOk result (λ made. made ≡ record { items = []; capacity = capacity }) }
    {
        Ok(Ring {
            items: VecDeque::with_capacity(alloc, capacity)?,
            words: VecDeque::with_capacity(alloc, capacity)?,
        })
    }

    pub(crate) fn allocator(&self) -> Global {
        *self.items.allocator()
    }

    pub(crate) fn len(&self) -> usize
        ensures len { result ≡ length self.now.items }
        ensures within { result ≤ self.now.capacity }
    {
        self.items.len()
    }

    pub(crate) fn capacity(&self) -> usize
        ensures { result ≡ self.now.capacity }
    {
        self.items.capacity()
    }

    pub(crate) fn find(&self, id: RecordId) -> Option<usize>
        ensures { result ≡ position (λ item. same_id item.id id) self.now.items }
    {
        let (front, back) = self.words.as_slices();
        find_in_pieces(front, back, id.pack())
    }

    pub(crate) fn item(&self, i: usize) -> &Item
        requires { i < length self.now.items }
        ensures { slice_get self.now.items i ≡ Some result.now }
    {
        &self.items[i]
    }

    /// Appends `item`.
    pub(crate) fn push(&mut self, item: Item)
        requires { length self.old.items < self.old.capacity }
        ensures { self.new ≡ record self.old { items = self.old.items ++ item ∷ [] } }
    {
        self.words.push_back_reserved(item.id.pack());
        self.items.push_back_reserved(item);
    }

    /// Takes out the first item.
    pub(crate) fn pop(&mut self) -> Item
        requires { 0 < length self.old.items }
        ensures items { self.old.items ≡ result ∷ self.new.items }
        ensures capacity { self.new.capacity ≡ self.old.capacity }
    {
        let _ = self.words.pop_front();
        match self.items.pop_front() {
            Some(item) => item,
            None => unreachable!(),
        }
    }

    /// Takes out the first `n` items.
    pub(crate) fn drop_front(&mut self, n: usize)
        requires { n ≤ length self.old.items }
        ensures { self.new ≡ record self.old { items = drop n self.old.items } }
    {
        let rest = self.items.len() - n;
        self.words.rotate_left(n);
        self.words.truncate(rest);
        for _item in 0..n {
            let _ = self.items.pop_front();
        }
    }

    /// Moves the last `count` items before the others.
    pub(crate) fn turn(&mut self, count: usize)
        requires { count ≤ length self.old.items }
        ensures { self.new ≡ record self.old {
          items = drop (length self.old.items - count) self.old.items ++ take (length self.old.items - count) self.old.items;
        } }
    {
        self.items.rotate_right(count);
        self.words.rotate_right(count);
    }
}
