//! The list itself. A call that may take memory answers `AllocError`, and then nothing has changed.

ghost use Rattle.std.specs.Prelude.{◌≡◌, ◌<◌, ◌≤◌, ◌++◌, ◌↔◌, List, [], ◌∷◌, length, take, slice_get, IsTrue, IsSome, IsNone, IfOk, IfSome, IfNone, OnOk, OnErr};

use std::alloc::{AllocError, Global};
use std::marker::Model;

/// A list of members, kept in one growing piece of memory.
#[derive(Drop)]
pub struct Sequence<T: Drop> {
    kept: Vec<T>,
}

impl<T: Drop> Model for Sequence<T> {
    ghost use Rattle.std.specs.Prelude.{List};

    ghost Value = { List T };

    ghost view = { λ sequence. sequence.kept.items };
}

/// A clone whose members equal those of its source equals the source.
impl<T: Drop + Clone> Clone for Sequence<T> {
    ghost is_clone = { λ a b. ((x y : T) → T.is_clone x y → y ≡ x) → b ≡ a };

    fn clone(&self) -> Result<Self, AllocError> {
        Ok(Sequence {
            kept: self.kept.clone()?,
        })
    }
}

impl<T: Drop> Sequence<T> {
    /// The empty list. It takes no memory.
    pub fn new(alloc: Global) -> Self
        ensures { result ≡ [] }
    {
        Sequence {
            kept: Vec::new(alloc),
        }
    }

    /// The list of the members of `members`, which takes no memory.
    pub fn from_vec(members: Vec<T>) -> Self
        ensures { result ≡ members.items }
    {
        Sequence { kept: members }
    }

    /// Gives the members back, and takes no memory.
    pub fn into_vec(self) -> Vec<T>
        ensures { result.items ≡ self }
    {
        let Sequence { kept } = self;
        kept
    }

    /// Appends `member`.
    pub fn push(&mut self, member: T) -> Result<(), AllocError>
        ensures ok { OnOk result (self.new ≡ self.old ++ member ∷ []) }
        ensures err { OnErr result (self.new ≡ self.old) }
    {
        self.kept.push(member)?;
        Ok(())
    }

    /// Appends the members of `other`, all or none.
    pub fn append(&mut self, other: Sequence<T>) -> Result<(), AllocError>
        ensures ok { OnOk result (self.new ≡ self.old ++ other) }
        ensures err { OnErr result (self.new ≡ self.old) }
    {
        let mut others = other.into_vec();
        self.kept.append(&mut others)?;
        Ok(())
    }

    /// Takes out the last member.
    pub fn pop(&mut self) -> Option<T>
        ensures none { IsNone result ↔ (self.old ≡ []) }
        ensures last { IfSome result (λ member. self.old ≡ self.new ++ member ∷ []) }
        ensures unchanged { IfNone result (self.new ≡ self.old) }
    {
        self.kept.pop()
    }

    /// Keeps the first `count` members.
    pub fn truncate(&mut self, count: usize)
        ensures { self.new ≡ take count self.old }
    {
        self.kept.truncate(count);
    }

    pub fn len(&self) -> usize
        ensures { result ≡ length self.now }
    {
        self.kept.len()
    }

    pub fn is_empty(&self) -> bool
        ensures { IsTrue result ↔ (self.now ≡ []) }
    {
        self.kept.is_empty()
    }

    /// Member `i`, counted from 0.
    pub fn at(&self, i: usize) -> &T
        requires { i < length self.now }
        ensures { slice_get self.now i ≡ Some result.now }
    {
        &self.kept[i]
    }

    pub fn as_slice(&self) -> &[T]
        ensures { result.now ≡ self.now }
    {
        self.kept.as_slice()
    }
}

impl<T: Drop + Clone> Sequence<T> {
    /// A list that equals this one, where a clone of a member equals its source.
    pub fn copy(&self) -> Result<Self, AllocError>
        ensures { IfOk result (λ made. ((x y : T) → T.is_clone x y → y ≡ x) → made ≡ self.now) }
    {
        self.clone()
    }
}

#[cfg(test)]
mod tests {
    use super::*;
    use std::test::Fail;

    #[test]
    fn fills_and_empties(rt: HostRuntime) -> Result<(), Fail> {
        let mut list = Sequence::new(rt.alloc());
        for member in [7u32, 8, 9] {
            list.push(member)?;
        }
        assert_eq!(rt; list.copy()?.as_slice(), [7, 8, 9].as_slice());
        assert_eq!(rt; list.pop(), Some(9));
        list.truncate(1);
        let mut other = Sequence::new(rt.alloc());
        other.push(6)?;
        list.append(other)?;
        assert_eq!(rt; list.into_vec().as_slice(), [7, 6].as_slice());
        Ok(())
    }
}
