//! The log itself.

ghost use Rattle.std.specs.Prelude.{◌≡◌, ◌++◌, ◌∷◌, [], ◌<◌, ◌≤◌, ◌↔◌, drop, take, length, slice_get, position, false, Some, IfOk, IfErr, IsErr, is_some, IsTrue, OnOk, OnErr};
ghost use Rattle.rec_id.specs.Identity.{has_id};

use crate::ring::Ring;
use plain_lists::Sequence;
use rec_id::{Item, ItemList, RecordId};
use std::alloc::{AllocError, Global};
use std::marker::Model;

/// A list of items with distinct identities, of which there is room for so many.
#[derive(Drop)]
pub struct PendingLog {
    ring: Ring,
}

impl Model for PendingLog {
    ghost use Rattle.std.specs.Prelude.{IsTrue};
    ghost use Rattle.pending_log.specs.Pending.{Pending, is_distinct};

    ghost Value = { Pending };

    ghost view = { λ log. log.ring };

    ghost invariant = { λ log. IsTrue (is_distinct log.ring.items) };
}

/// Drops an item. In a function of its own, so that proofs don't go by what the item holds.
fn let_go(_item: Item) {}

/// Whether the identity is among `ids`.
fn is_among(ids: &[RecordId], id: &RecordId) -> bool
    ensures { result ≡ has_id ids.now id.now }
{
    ids.contains(id)
}

impl PendingLog {
    ghost use Rattle.pending_log.specs.Pending.{Pending, has_item, is_distinct, without};
    ghost use Rattle.rec_id.specs.Identity.{same_id};

    /// An empty log with room for `capacity` items.
    pub fn with_capacity(alloc: Global, capacity: usize) -> Result<PendingLog, AllocError>
        ensures { IfOk result (λ made. made ≡ record { items = []; capacity = capacity }) }
    {
        Ok(PendingLog {
            ring: Ring::with_capacity(alloc, capacity)?,
        })
    }

    pub fn len(&self) -> usize
        ensures len { result ≡ length self.now.items }
        ensures within { result ≤ self.now.capacity }
        ensures distinct { IsTrue (is_distinct self.now.items) }
    {
        self.ring.len()
    }

    /// Where the item of this identity stands.
    pub fn find(&self, id: RecordId) -> Option<usize>
        ensures place { result ≡ position (λ item. same_id item.id id) self.now.items }
        ensures found { is_some result ≡ has_item self.now.items id }
    {
        self.ring.find(id)
    }

    /// Item `i`, counted from 0.
    pub fn item(&self, i: usize) -> &Item
        requires { i < length self.now.items }
        ensures { slice_get self.now.items i ≡ Some result.now }
    {
        self.ring.item(i)
    }

    /// Appends `item`, or hands it back where the log is full.
    pub fn push(&mut self, item: Item) -> Result<(), Item>
        requires { has_item self.old.items item.id ≡ false }
        ensures ok { OnOk result (self.new ≡ record self.old { items = self.old.items ++ item ∷ [] }) }
        ensures err { OnErr result (self.new ≡ self.old) }
        ensures handed_back { IfErr result (λ back. back ≡ item) }
        ensures full { IsErr result ↔ (length self.old.items ≡ self.old.capacity) }
    {
        if self.ring.len() == self.ring.capacity() {
            return Err(item);
        }
        self.ring.push(item);
        Ok(())
    }

    /// Takes out the items of these identities. The others stay in their order. It looks at no more
    /// items than it needs to have met as many as there are identities.
    pub fn remove_ids(&mut self, ids: &[RecordId])
        ensures { self.new ≡ record self.old { items = without ids.now self.old.items } }
    {
        let mut unmet = ids.len();
        let mut kept = 0;
        for _item in 0..self.ring.len() {
            if unmet == 0 {
                break;
            }
            let item = self.ring.pop();
            if is_among(ids, &item.id) {
                let_go(item);
                unmet -= 1;
            } else {
                self.ring.push(item);
                kept += 1;
            }
        }
        self.ring.turn(kept);
    }

    /// Takes out the first `n` items.
    pub fn drop_front(&mut self, n: usize)
        requires { n ≤ length self.old.items }
        ensures { self.new ≡ record self.old { items = drop n self.old.items } }
    {
        self.ring.drop_front(n);
    }

    /// Copies of the first `n` items, or of all where there are fewer.
    pub fn front(&self, n: usize) -> Result<ItemList, AllocError>
        ensures { IfOk result (λ list. list ≡ take n self.now.items) }
    {
        let count = n.min(self.ring.len());
        let mut front = Vec::with_capacity(self.ring.allocator(), count)?;
        for i in 0..count {
            front.push(self.ring.item(i).copy()?)?;
        }
        Ok(Sequence::from_vec(front))
    }
}

#[cfg(test)]
mod tests {
    use super::*;
    use std::test::Fail;

    fn id(number: u32) -> Result<RecordId, Fail>
        ensures { IfOk result (λ id. id.client ≡ 0) }
    {
        match RecordId::new(0, number) {
            Ok(id) => Ok(id),
            Err(_) => Err("no identity")?,
        }
    }

    #[test]
    fn two_items(rt: HostRuntime) -> Result<(), Fail> {
        let mut log = PendingLog::with_capacity(rt.alloc(), 2)?;
        for number in 1..4 {
            let item = Item {
                id: id(number)?,
                bytes: None,
            };
            if log.find(item.id).is_none() {
                let handed_back = log.push(item).is_err();
                assert_eq!(rt; handed_back, number == 3);
            }
        }
        log.remove_ids(&[id(1)?]);
        let front = log.front(2)?;
        assert_eq!(rt; front.len(), 1);
        assert_eq!(rt; front.at(0).id, id(2)?);
        assert_eq!(rt; log.find(id(1)?), None);
        Ok(())
    }
}
