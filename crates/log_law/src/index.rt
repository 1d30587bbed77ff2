//! Where a key stands in a list of keys: its first place by a map, and from there on place by place.

ghost use Rattle.std.specs.Prelude.{◌≡◌, ◌+◌, ◌<◌, Some, length, IfOk};
ghost use Rattle.log_law.specs.Keys.{key_at, IsNext};

use std::alloc::{AllocError, Global};
use std::collections::BTreeMap;
use std::marker::Model;

/// A list of keys with an index. A key is a client and a number of it.
#[derive(Drop)]
pub struct KeyIndex {
    keys: Vec<Option<(u32, u32)>>,
    firsts: BTreeMap<(u32, u32), usize>,
    /// The next place of the same key, and the length of the list where there is none.
    nexts: Vec<usize>,
}

impl Model for KeyIndex {
    ghost use Rattle.std.specs.Prelude.{List, Option, ℕ};
    ghost use Rattle.log_law.specs.Keys.{IsIndexed};

    ghost Value = { List (Option (ℕ × ℕ)) };

    ghost view = { λ index. index.keys.items };

    ghost invariant = { λ index. IsIndexed index.keys.items 0 index.firsts index.nexts.items };
}

impl KeyIndex {
    /// The index of these keys. It takes n log n steps.
    pub fn of(alloc: Global, keys: Vec<Option<(u32, u32)>>) -> Result<KeyIndex, AllocError>
        ensures { IfOk result (λ index. index ≡ keys.items) }
    {
        let count = keys.len();
        let mut firsts = BTreeMap::new(alloc);
        let mut nexts = vec![in alloc; count; count]?;
        let mut i = count;
        while i > 0 {
            i -= 1;
            if let Some(key) = keys[i] {
                nexts[i] = firsts.insert(key, i)?.unwrap_or(count);
            }
        }
        Ok(KeyIndex {
            keys,
            firsts,
            nexts,
        })
    }

    pub fn len(&self) -> usize
        ensures { result ≡ length self.now }
    {
        self.keys.len()
    }

    /// The key at place `i`.
    pub fn at(&self, i: usize) -> Option<(u32, u32)>
        requires { i < length self.now }
        ensures { result ≡ key_at self.now i }
    {
        self.keys[i]
    }

    /// The first place of `key`, and the length of the list where there is none.
    pub fn first(&self, key: (u32, u32)) -> usize
        ensures { IsNext self.now 0 key result }
    {
        self.firsts.get(&key).copied().unwrap_or(self.keys.len())
    }

    /// The next place after `i` that has the same key, and the length of the list where there is
    /// none.
    pub fn next(&self, i: usize, key: (u32, u32)) -> usize
        requires within { i < length self.now }
        requires stands { key_at self.now i ≡ Some key }
        ensures { IsNext self.now (i + 1) key result }
    {
        self.nexts[i]
    }
}
