//! Streams over memory that never fail.

ghost use Rattle.std.specs.Prelude.{◌≡◌, ◌++◌, [], Some, length, drop, min, IfOk, OnOk, OnErr};
ghost use Rattle.io_edges.specs.Reading.{filled};

use crate::{Failed, Sink, SinkFailed, Source};
use std::alloc::{AllocError, Global};
use std::marker::Model;

/// Bytes that can be read.
#[derive(Drop)]
pub struct PlainSource {
    bytes: Vec<u8>,
    taken: usize,
}

impl Model for PlainSource {
    ghost use Rattle.std.specs.Prelude.{List, ℕ, ◌≤◌, drop, vec_len};

    ghost Value = { List ℕ };

    ghost view = { λ source. drop source.taken source.bytes.items };

    ghost invariant = { λ source. source.taken ≤ vec_len source.bytes };
}

impl PlainSource {
    /// A source of a copy of `bytes`.
    pub fn new(alloc: Global, bytes: &[u8]) -> Result<PlainSource, AllocError>
        ensures { IfOk result (λ source. source ≡ bytes.now) }
    {
        Ok(PlainSource {
            bytes: Vec::from_slice(alloc, bytes)?,
            taken: 0,
        })
    }
}

impl Source for PlainSource {
    ghost left = { λ source. Some source };

    ghost faults = { λ _. 0 };

    /// Reads as many bytes as fit and are left.
    fn read(&mut self, buf: &mut [u8]) -> Result<usize, Failed>
        ensures count { result ≡ Ok (min (length buf.old) (length self.old)) }
        ensures read { buf.new ≡ filled self.old buf.old }
        ensures left { self.new ≡ drop (length buf.old) self.old }
    {
        let left = &self.bytes[self.taken..];
        let count = buf.len().min(left.len());
        buf[..count].copy_from_slice(&left[..count]);
        self.taken += count;
        Ok(count)
    }
}

/// Bytes that were written.
#[derive(Drop)]
pub struct PlainSink {
    bytes: Vec<u8>,
}

impl Model for PlainSink {
    ghost use Rattle.std.specs.Prelude.{List, ℕ};

    ghost Value = { List ℕ };

    ghost view = { λ sink. sink.bytes.items };
}

impl PlainSink {
    /// A sink to which nothing was written. It takes no memory.
    pub fn new(alloc: Global) -> PlainSink
        ensures { result ≡ [] }
    {
        PlainSink {
            bytes: Vec::new(alloc),
        }
    }

    /// The bytes written so far.
    pub fn written(&self) -> &[u8]
        ensures { result.now ≡ self.now }
    {
        self.bytes.as_slice()
    }
}

impl Sink for PlainSink {
    ghost written = { λ sink. Some sink };

    ghost faults = { λ _. 0 };

    /// Writes the whole piece, unless there is no memory for it.
    fn write(&mut self, bytes: &[u8]) -> Result<usize, SinkFailed>
        ensures whole { IfOk result (λ count. count ≡ length bytes.now) }
        ensures appended { OnOk result (self.new ≡ self.old ++ bytes.now) }
        ensures memory { OnErr result (result ≡ Err SinkFailed.Memory) }
        ensures err { OnErr result (self.new ≡ self.old) }
    {
        self.bytes.extend_from_slice(bytes)?;
        Ok(bytes.len())
    }
}
