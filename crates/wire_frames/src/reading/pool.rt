//! The memory of the data that a frame has. Each datum of a list is a slice of one copy of the list's
//! bytes, so that a list takes memory once, for the first of them. A datum alone gets its own bytes.

ghost use Rattle.std.specs.Prelude.{◌≡◌, ◌+◌, ◌≤◌, length, take, drop, IfOk};

use rec_id::Bytes;
use std::alloc::{AllocError, Global};
use std::marker::Model;

#[derive(Drop)]
pub struct Pool<'a> {
    alloc: Global,
    bytes: &'a [u8],
    is_shared: bool,
    copy: Option<Bytes>,
}

impl<'a> Model for Pool<'a> {
    ghost use Rattle.std.specs.Prelude.{◌≡◌, ℕ, List, IfSome};

    ghost Value = { List ℕ };

    ghost view = { λ pool. pool.bytes.now };

    ghost invariant = { λ pool. IfSome pool.copy (λ copy. copy ≡ pool.bytes.now) };
}

impl<'a> Pool<'a> {
    /// For the data of so many members, all of them in these bytes.
    #[inline(always)]
    pub fn new(alloc: Global, count: usize, bytes: &'a [u8]) -> Pool<'a>
        ensures { result ≡ bytes.now }
    {
        Pool {
            alloc,
            bytes,
            is_shared: count > 1,
            copy: None,
        }
    }

    #[inline(always)]
    pub fn len(&self) -> usize
        ensures { result ≡ length self.now }
    {
        self.bytes.len()
    }

    /// The `len` bytes from byte `at` on.
    #[inline(always)]
    pub fn slice(&mut self, at: usize, len: usize) -> Result<Bytes, AllocError>
        requires { at + len ≤ length self.old }
        ensures bytes { IfOk result (λ bytes. bytes ≡ take len (drop at self.old)) }
        ensures same { self.new ≡ self.old }
    {
        if self.is_shared {
            return self.slice_of_copy(at, len);
        }
        Bytes::copy(self.alloc, &self.bytes[at..at + len])
    }

    fn slice_of_copy(&mut self, at: usize, len: usize) -> Result<Bytes, AllocError>
        requires { at + len ≤ length self.old }
        ensures bytes { IfOk result (λ bytes. bytes ≡ take len (drop at self.old)) }
        ensures same { self.new ≡ self.old }
    {
        if let Some(copy) = &self.copy {
            return copy.slice(at, len);
        }
        let copy = Bytes::copy(self.alloc, self.bytes)?;
        let slice = copy.slice(at, len)?;
        self.copy = Some(copy);
        Ok(slice)
    }
}
