//! What a replica keeps of a record: a sequencing replica an item, a shard replica a cell.

ghost use Rattle.std.specs.Prelude.{◌≡◌, IfOk};

use crate::{Bytes, RecordId};
use std::alloc::AllocError;

/// A record on its way to its place. The bytes are there only where they go through the
/// sequencing replicas.
#[derive(Drop)]
pub struct Item {
    pub id: RecordId,
    pub bytes: Option<Bytes>,
}

/// What a shard replica has of the record at a place.
#[derive(Drop)]
pub enum Body {
    /// The data belongs to another shard.
    Elsewhere,
    Kept(Bytes),
    /// The data never came in time.
    Noop,
    /// The data is still awaited.
    Open,
    /// The data was given up.
    Gone,
}

/// A place in the order of a shard replica.
#[derive(Drop)]
pub struct Cell {
    pub id: RecordId,
    pub body: Body,
}

/// Equal bytes, where there are any.
pub fn copy_optional(bytes: &Option<Bytes>) -> Result<Option<Bytes>, AllocError>
    ensures { IfOk result (λ made. made ≡ bytes.now) }
{
    match bytes {
        Some(bytes) => Ok(Some(bytes.clone()?)),
        None => Ok(None),
    }
}

impl Clone for Item {
    ghost is_clone = { λ a b. b ≡ a };

    fn clone(&self) -> Result<Self, AllocError> {
        Ok(Item {
            id: self.id,
            bytes: copy_optional(&self.bytes)?,
        })
    }
}

impl Clone for Body {
    ghost is_clone = { λ a b. b ≡ a };

    fn clone(&self) -> Result<Self, AllocError> {
        match self {
            Body::Elsewhere => Ok(Body::Elsewhere),
            Body::Kept(bytes) => Ok(Body::Kept(bytes.clone()?)),
            Body::Noop => Ok(Body::Noop),
            Body::Open => Ok(Body::Open),
            Body::Gone => Ok(Body::Gone),
        }
    }
}

impl Clone for Cell {
    ghost is_clone = { λ a b. b ≡ a };

    fn clone(&self) -> Result<Self, AllocError> {
        Ok(Cell {
            id: self.id,
            body: self.body.clone()?,
        })
    }
}

impl Item {
    /// An equal item.
    pub fn copy(&self) -> Result<Item, AllocError>
        ensures { IfOk result (λ made. made ≡ self.now) }
    {
        self.clone()
    }
}

impl Body {
    /// An equal body.
    pub fn copy(&self) -> Result<Body, AllocError>
        ensures { IfOk result (λ made. made ≡ self.now) }
    {
        self.clone()
    }
}

impl Cell {
    /// An equal cell.
    pub fn copy(&self) -> Result<Cell, AllocError>
        ensures { IfOk result (λ made. made ≡ self.now) }
    {
        self.clone()
    }
}

#[cfg(test)]
mod tests {
    use super::*;
    use crate::{Entry, Event, Marks};
    use plain_lists::Sequence;
    use std::test::Fail;

    #[test]
    fn copies_are_of_the_same_kind(rt: HostRuntime) -> Result<(), Fail> {
        let id = RecordId::new(1, 2).ok().ok_or("an identity")?;
        let bytes = Some(Bytes::copy(rt.alloc(), b"a")?);
        let item = Item { id, bytes }.copy()?;
        assert!(rt; item.id == id && item.bytes.is_some());
        let cell = Cell {
            id,
            body: Body::Open,
        }
        .copy()?;
        assert!(rt; cell.id == id && matches!(cell.body.copy()?, Body::Open));
        assert!(rt; matches!(Entry::Noop(id).copy()?, Entry::Noop(_)));
        assert!(rt; matches!(Event::Acked(id).copy()?, Event::Acked(_)));
        let marks = Marks {
            top: 9,
            bits: Sequence::new(rt.alloc()),
        }
        .copy()?;
        assert_eq!(rt; marks.top, 9);
        Ok(())
    }
}
