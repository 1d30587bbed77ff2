//! Streams over memory, of which given calls fail.

ghost use Rattle.std.specs.Prelude.{◌≡◌, ◌≢◌, ◌↔◌, Some, true, length, min, if◌then◌else◌, IfOk, IsErr, IsErrOf};
ghost use Rattle.io_edges.specs.Calls.{fails_next};
ghost use Rattle.io_edges.specs.Reading.{unread, filled, after_read};
ghost use Rattle.io_edges.specs.Writing.{unwritten, after_write};

use crate::plan::Plan;
use crate::{Failed, PlainSink, PlainSource, Sink, SinkFailed, Source};
use std::alloc::{AllocError, Global};
use std::marker::Model;

/// Bytes that can be read, by reads of which some fail.
#[derive(Drop)]
pub struct MemSource {
    plain: PlainSource,
    plan: Plan,
}

impl Model for MemSource {
    ghost use Rattle.io_edges.specs.Reading.{Reading};

    ghost Value = { Reading };

    ghost view = { λ source. record { left = source.plain; calls = source.plan } };
}

impl MemSource {
    /// A source of a copy of `bytes`, whose reads with the numbers `fails`, from 1, are to fail.
    pub fn new(alloc: Global, bytes: &[u8], fails: &[u64]) -> Result<MemSource, AllocError>
        ensures { IfOk result (λ source. source ≡ unread bytes.now fails.now) }
    {
        Ok(MemSource {
            plain: PlainSource::new(alloc, bytes)?,
            plan: Plan::new(alloc, fails)?,
        })
    }
}

impl Source for MemSource {
    ghost left = { λ source. Some source.left };

    ghost faults = { λ source. source.calls.faults };

    /// Reads as many bytes as fit and are left, unless this read is to fail.
    fn read(&mut self, buf: &mut [u8]) -> Result<usize, Failed>
        ensures failed { IsErr result ↔ (fails_next self.old.calls ≡ true) }
        ensures count { IfOk result (λ count. count ≡ min (length buf.old) (length self.old.left)) }
        ensures read { buf.new ≡ (if fails_next self.old.calls then buf.old
            else filled self.old.left buf.old) }
        ensures after { self.new ≡ after_read self.old (length buf.old) }
    {
        let fails = self.plan.fails_next();
        self.plan.count();
        if fails {
            return Err(Failed);
        }
        self.plain.read(buf)
    }
}

/// Bytes that were written, by writes of which some fail.
#[derive(Drop)]
pub struct MemSink {
    plain: PlainSink,
    plan: Plan,
}

impl Model for MemSink {
    ghost use Rattle.io_edges.specs.Writing.{Writing};

    ghost Value = { Writing };

    ghost view = { λ sink. record { written = sink.plain; calls = sink.plan } };
}

impl MemSink {
    /// A sink to which nothing was written, whose writes with the numbers `fails`, from 1, are to
    /// fail.
    pub fn new(alloc: Global, fails: &[u64]) -> Result<MemSink, AllocError>
        ensures { IfOk result (λ sink. sink ≡ unwritten fails.now) }
    {
        Ok(MemSink {
            plain: PlainSink::new(alloc),
            plan: Plan::new(alloc, fails)?,
        })
    }

    /// The bytes written so far.
    pub fn written(&self) -> &[u8]
        ensures { result.now ≡ self.now.written }
    {
        self.plain.written()
    }
}

impl Sink for MemSink {
    ghost written = { λ sink. Some sink.written };

    ghost faults = { λ sink. sink.calls.faults };

    /// Writes the whole piece, unless this write is to fail or there is no memory for it. A write
    /// for which there is no memory isn't counted.
    fn write(&mut self, bytes: &[u8]) -> Result<usize, SinkFailed>
        ensures failed { IsErrOf result SinkFailed.Failed ↔ (fails_next self.old.calls ≡ true) }
        ensures whole { IfOk result (λ count. count ≡ length bytes.now) }
        ensures after { result ≢ Err SinkFailed.Memory → self.new ≡ after_write self.old bytes.now }
        ensures memory { IsErrOf result SinkFailed.Memory → self.new ≡ self.old }
    {
        if self.plan.fails_next() {
            self.plan.count();
            return Err(SinkFailed::Failed);
        }
        let count = self.plain.write(bytes)?;
        self.plan.count();
        Ok(count)
    }
}

#[cfg(test)]
mod tests {
    use super::*;
    use crate::write_all;
    use std::test::Fail;

    fn three_reads<S: Source>(source: &mut S, buf: &mut [u8]) -> [Result<usize, Failed>; 3] {
        [source.read(buf), source.read(buf), source.read(buf)]
    }

    #[test]
    fn streams_over_memory(rt: HostRuntime) -> Result<(), Fail> {
        let mut buf = [0u8; 2];
        let mut source = PlainSource::new(rt.alloc(), b"abc")?;
        assert_eq!(rt; three_reads(&mut source, &mut buf), [Ok(2), Ok(1), Ok(0)]);
        let mut source = MemSource::new(rt.alloc(), b"xyz", &[2])?;
        assert_eq!(rt;
            three_reads(&mut source, &mut buf),
            [Ok(2), Err(Failed), Ok(1)]
        );
        assert_eq!(rt; buf, *b"zy");

        let mut sink = PlainSink::new(rt.alloc());
        assert_eq!(rt; write_all(&mut sink, b"ab"), Ok(()));
        assert_eq!(rt; sink.written(), b"ab".as_slice());
        let mut sink = MemSink::new(rt.alloc(), &[2])?;
        let outcomes = [
            write_all(&mut sink, b"ab"),
            write_all(&mut sink, b"cd"),
            write_all(&mut sink, b"ef"),
        ];
        assert_eq!(rt; outcomes, [Ok(()), Err(SinkFailed::Failed), Ok(())]);
        assert_eq!(rt; sink.written(), b"abef".as_slice());
        Ok(())
    }
}
