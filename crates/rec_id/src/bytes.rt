//! The data of a record.
//!
//! Data is shared, not copied: a clone has the same bytes in memory as its source, and counts as one
//! more owner of them. What several own is never written.

ghost use Rattle.std.specs.Prelude.{◌≡◌, ◌<◌, ◌≤◌, ◌+◌, ◌++◌, ◌↔◌, List, [], ◌∷◌, length, replicate, take, drop, slice_get, IsNone, IfOk, IfSome, IfNone, OnOk, OnErr, Some};
ghost use Rattle.std.specs.Arc.{arc_value};
ghost use Rattle.rec_id.specs.Sharing.{bytes_of};
ghost use Rattle.rec_id.specs.declared.bytes.Block.TheVariants.{Short};

use plain_lists::Sequence;
use std::alloc::{AllocError, Global};
use std::marker::Model;
use std::sync::Arc;

/// So many bytes at most lie beside the count of their owners, in one piece of memory with it. More
/// have a piece of their own.
const SHORT: usize = 64;

/// The memory of a record's data, which may have several owners.
#[derive(Drop)]
enum Block {
    Short([u8; 64]),
    Long(Sequence<u8>),
}

impl Clone for Block {
    ghost is_clone = { λ a b. b ≡ a };

    fn clone(&self) -> Result<Self, AllocError> {
        match self {
            Block::Short(bytes) => Ok(Block::Short(*bytes)),
            Block::Long(bytes) => Ok(Block::Long(bytes.copy()?)),
        }
    }
}

/// Writes `bytes` over the first ones of `into`.
fn write_front(into: &mut [u8; 64], bytes: &[u8])
    requires { length bytes.now ≤ 64 }
    ensures begins { take (length bytes.now) into.new ≡ bytes.now }
    ensures within { length bytes.now ≤ length into.new }
{
    into[..bytes.len()].copy_from_slice(bytes);
}

impl Block {
    /// Writes `bytes` over the first ones of a short block.
    fn begin(&mut self, bytes: &[u8])
        requires short { self.old ≡ Short (replicate 64 0) }
        requires fit { length bytes.now ≤ 64 }
        ensures begins { take (length bytes.now) (bytes_of self.new) ≡ bytes.now }
        ensures within { length bytes.now ≤ length (bytes_of self.new) }
    {
        match self {
            Block::Short(short) => write_front(short, bytes),
            Block::Long(_) => unreachable!(),
        }
    }

    fn as_slice(&self) -> &[u8]
        ensures { result.now ≡ bytes_of self.now }
    {
        match self {
            Block::Short(bytes) => bytes,
            Block::Long(bytes) => bytes.as_slice(),
        }
    }

    /// Puts `byte` behind the first `len` bytes.
    fn put(&mut self, alloc: Global, len: usize, byte: u8) -> Result<(), AllocError>
        requires { len ≤ length (bytes_of self.old) }
        ensures put { OnOk result (take (len + 1) (bytes_of self.new) ≡ take len (bytes_of self.old) ++ byte ∷ []) }
        ensures within { OnOk result (len + 1 ≤ length (bytes_of self.new)) }
        ensures err { OnErr result (take len (bytes_of self.new) ≡ take len (bytes_of self.old)) }
        ensures still { OnErr result (len ≤ length (bytes_of self.new)) }
    {
        match self {
            Block::Short(bytes) => {
                if len < SHORT {
                    bytes[len] = byte;
                } else {
                    let mut long = Sequence::from_vec(Vec::from_slice(alloc, &bytes[..])?);
                    long.push(byte)?;
                    *self = Block::Long(long);
                }
            }
            Block::Long(bytes) => {
                bytes.truncate(len);
                bytes.push(byte)?;
            }
        }
        Ok(())
    }
}

/// A block that begins with `bytes`. Short ones are written where they stay.
fn share(alloc: Global, bytes: &[u8]) -> Result<Arc<Block>, AllocError>
    ensures begins { IfOk result (λ block. take (length bytes.now) (bytes_of (arc_value block)) ≡ bytes.now) }
    ensures within { IfOk result (λ block. length bytes.now ≤ length (bytes_of (arc_value block))) }
{
    if bytes.len() > SHORT {
        let long = Sequence::from_vec(Vec::from_slice(alloc, bytes)?);
        return Ok(Arc::new(alloc, Block::Long(long))?);
    }
    let mut block = Arc::new(alloc, Block::Short([0; SHORT]))?;
    let Some(own) = Arc::get_mut(&mut block) else {
        return Err(AllocError);
    };
    own.begin(bytes);
    Ok(block)
}

/// A list of bytes. How many a record may have is a matter of the edition (`view_config`).
///
/// A clone takes no memory, and costs the same for any number of bytes. So does a slice: its bytes are
/// those of the list, all of which stay in memory for as long as a slice of them does.
#[derive(Drop)]
pub struct Bytes {
    alloc: Global,
    /// The list is what this has from `start` on, up to `end`.
    block: Option<Arc<Block>>,
    start: u32,
    end: u32,
}

impl Model for Bytes {
    ghost use Rattle.std.specs.Prelude.{List, ℕ, ◌≤◌, [], length, take, drop};
    ghost use Rattle.std.specs.Option.{option_map_or};
    ghost use Rattle.std.specs.Arc.{arc_value};
    ghost use Rattle.rec_id.specs.Sharing.{bytes_of};

    ghost Value = { List ℕ };

    ghost view = { λ bytes. drop bytes.start (take bytes.end (option_map_or (λ block. bytes_of (arc_value block)) bytes.block [])) };

    ghost invariant = { λ bytes. (bytes.start ≤ bytes.end) × (bytes.end ≤ length (option_map_or (λ block. bytes_of (arc_value block)) bytes.block [])) };
}

impl Clone for Bytes {
    ghost is_clone = { λ a b. b ≡ a };

    fn clone(&self) -> Result<Self, AllocError> {
        let block = match &self.block {
            Some(block) => Some(Arc::try_clone(block)?),
            None => None,
        };
        Ok(Bytes {
            alloc: self.alloc,
            block,
            start: self.start,
            end: self.end,
        })
    }
}

impl Bytes {
    /// No bytes. It takes no memory.
    pub fn new(alloc: Global) -> Bytes
        ensures { result ≡ [] }
    {
        Bytes {
            alloc,
            block: None,
            start: 0,
            end: 0,
        }
    }

    /// A copy of `bytes`. More than `u32::MAX` of them count as want of memory.
    pub fn copy(alloc: Global, bytes: &[u8]) -> Result<Bytes, AllocError>
        ensures { IfOk result (λ made. made ≡ bytes.now) }
    {
        if bytes.is_empty() {
            return Ok(Bytes::new(alloc));
        }
        let end = u32::try_from(bytes.len()).map_err(|_| AllocError)?;
        Ok(Bytes {
            alloc,
            block: Some(share(alloc, bytes)?),
            start: 0,
            end,
        })
    }

    /// The `len` bytes from byte `at` on, counted from 0.
    pub fn slice(&self, at: usize, len: usize) -> Result<Bytes, AllocError>
        requires { at + len ≤ length self.now }
        ensures { IfOk result (λ slice. slice ≡ take len (drop at self.now)) }
    {
        let mut slice = self.clone()?;
        slice.narrow(at as u32, len as u32);
        Ok(slice)
    }

    /// Leaves the `len` bytes from byte `at` on.
    fn narrow(&mut self, at: u32, len: u32)
        requires { at + len ≤ length self.old }
        ensures { self.new ≡ take len (drop at self.old) }
    {
        self.start += at;
        self.end = self.start + len;
    }

    fn has_other_owners(&self) -> bool {
        match &self.block {
            Some(block) => Arc::strong_count(block) > 1,
            None => false,
        }
    }

    /// Where others own its memory too, it gets memory of its own.
    fn unshare(&mut self) -> Result<(), AllocError>
        ensures { self.new ≡ self.old }
    {
        if self.has_other_owners() {
            *self = Bytes::copy(self.alloc, self.as_slice())?;
        }
        Ok(())
    }

    /// Appends `byte`. Where others own the bytes too, they are copied first.
    pub fn push(&mut self, byte: u8) -> Result<(), AllocError>
        ensures ok { OnOk result (self.new ≡ self.old ++ byte ∷ []) }
        ensures err { OnErr result (self.new ≡ self.old) }
    {
        self.unshare()?;
        let end = self.end.checked_add(1).ok_or(AllocError)?;
        match &mut self.block {
            Some(block) => {
                let own = Arc::make_mut(block)?;
                own.put(self.alloc, self.end as usize, byte)?;
            }
            None => {
                self.block = Some(share(self.alloc, &[byte])?);
            }
        }
        self.end = end;
        Ok(())
    }

    /// Takes out the last byte. It takes no memory, and what others have stays.
    pub fn pop(&mut self) -> Option<u8>
        ensures none { IsNone result ↔ (self.old ≡ []) }
        ensures last { IfSome result (λ byte. self.old ≡ self.new ++ byte ∷ []) }
        ensures unchanged { IfNone result (self.new ≡ self.old) }
    {
        let last = *self.as_slice().last()?;
        self.end -= 1;
        Some(last)
    }

    pub fn len(&self) -> usize
        ensures { result ≡ length self.now }
    {
        (self.end - self.start) as usize
    }

    /// Byte `i`, counted from 0.
    pub fn at(&self, i: usize) -> &u8
        requires { i < length self.now }
        ensures { slice_get self.now i ≡ Some result.now }
    {
        &self.as_slice()[i]
    }

    pub fn as_slice(&self) -> &[u8]
        ensures { result.now ≡ self.now }
    {
        match &self.block {
            Some(block) => &block.as_slice()[self.start as usize..self.end as usize],
            None => &[],
        }
    }
}

#[cfg(test)]
mod tests {
    use super::*;
    use std::test::Fail;
    use std::thread;

    #[test]
    fn copies(rt: HostRuntime) -> Result<(), Fail> {
        let mut bytes = Bytes::copy(rt.alloc(), b"ab")?;
        bytes.push(b'c')?;
        assert_eq!(rt; bytes.clone()?.as_slice(), b"abc".as_slice());
        assert_eq!(rt; bytes.pop(), Some(b'c'));
        assert_eq!(rt; bytes.len(), 2);
        Ok(())
    }

    #[test]
    fn changes_are_not_shared(rt: HostRuntime) -> Result<(), Fail> {
        for bytes in [[7].as_slice(), [7; 64].as_slice(), [7; 65].as_slice()] {
            let theirs = Bytes::copy(rt.alloc(), bytes)?;
            let mut mine = theirs.clone()?;
            mine.push(8)?;
            assert_eq!(rt; mine.len(), bytes.len() + 1);
            assert_eq!(rt; mine.pop(), Some(8));
            let mut other = mine.clone()?;
            assert_eq!(rt; other.pop(), Some(7));
            other.push(9)?;
            assert_eq!(rt; mine.as_slice(), bytes);
            assert_eq!(rt; theirs.as_slice(), bytes);
        }
        Ok(())
    }

    #[test]
    fn slices_share(rt: HostRuntime) -> Result<(), Fail> {
        for bytes in [[7; 64].as_slice(), [7; 65].as_slice()] {
            let whole = Bytes::copy(rt.alloc(), bytes)?;
            let inner = whole.slice(8, 32)?;
            let mut mine = inner.slice(30, 2)?;
            mine.push(8)?;
            assert_eq!(rt; mine.as_slice(), [7, 7, 8].as_slice());
            assert_eq!(rt; inner.as_slice(), [7; 32].as_slice());
            assert_eq!(rt; whole.as_slice(), bytes);
            assert_eq!(rt; whole.slice(bytes.len(), 0)?.len(), 0);
        }
        Ok(())
    }

    #[test]
    fn slice_is_changed_alone(rt: HostRuntime) -> Result<(), Fail> {
        let mut mine = Bytes::copy(rt.alloc(), b"abcdef")?.slice(1, 3)?;
        mine.push(b'x')?;
        assert_eq!(rt; mine.pop(), Some(b'x'));
        assert_eq!(rt; mine.as_slice(), b"bcd".as_slice());
        Ok(())
    }

    #[test]
    fn threads_share(rt: HostRuntime) -> Result<(), Fail> {
        let mine = Bytes::copy(rt.alloc(), b"ab")?;
        let theirs = mine.clone()?;
        let (there, here) = thread::join(&rt, move || theirs.len(), || mine.len());
        assert_eq!(rt; there, here);
        Ok(())
    }
}
