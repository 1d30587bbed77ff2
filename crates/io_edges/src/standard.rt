//! Streams over those of the system. Nothing is known of their bytes.

ghost use Rattle.std.specs.Prelude.{◌≡◌, None};

use crate::count::raise;
use crate::{Failed, Sink, SinkFailed, Source};
use std::io::{Read, Write};
use std::marker::Model;

/// A source over a reader, such as standard input. Nothing is read ahead.
#[derive(Drop)]
pub struct StdSource<R: Read + Drop> {
    reader: R,
    faults: u64,
}

impl<R: Read + Drop> Model for StdSource<R> {
    ghost use Rattle.std.specs.Prelude.{ℕ};

    ghost Value = { ℕ };

    ghost view = { λ source. source.faults };
}

impl<R: Read + Drop> StdSource<R> {
    /// A source over `reader`. It had no faults yet.
    pub fn new(reader: R) -> Self
        ensures { result ≡ 0 }
    {
        StdSource { reader, faults: 0 }
    }
}

impl<R: Read + Drop> Source for StdSource<R> {
    ghost left = { λ _. None };

    ghost faults = { λ source. source };

    /// Reads once. Each error of the reader is a fault, that of a call that was interrupted too.
    fn read(&mut self, buf: &mut [u8]) -> Result<usize, Failed> {
        match self.reader.read(buf) {
            Ok(count) => Ok(count),
            Err(_) => {
                self.faults = raise(self.faults);
                Err(Failed)
            }
        }
    }
}

/// A sink over a writer, such as standard output. Nothing is held back.
#[derive(Drop)]
pub struct StdSink<W: Write + Drop> {
    writer: W,
    faults: u64,
}

impl<W: Write + Drop> Model for StdSink<W> {
    ghost use Rattle.std.specs.Prelude.{ℕ};

    ghost Value = { ℕ };

    ghost view = { λ sink. sink.faults };
}

impl<W: Write + Drop> StdSink<W> {
    /// A sink over `writer`. It had no faults yet.
    pub fn new(writer: W) -> Self
        ensures { result ≡ 0 }
    {
        StdSink { writer, faults: 0 }
    }
}

impl<W: Write + Drop> Sink for StdSink<W> {
    ghost written = { λ _. None };

    ghost faults = { λ sink. sink };

    /// Writes once. Each error of the writer is a fault, and so is a write that takes none of the
    /// bytes, where there are any.
    fn write(&mut self, bytes: &[u8]) -> Result<usize, SinkFailed> {
        match self.writer.write(bytes) {
            Ok(count) if count > 0 || bytes.is_empty() => Ok(count),
            _ => {
                self.faults = raise(self.faults);
                Err(SinkFailed::Failed)
            }
        }
    }
}

#[cfg(test)]
mod tests {
    use super::*;
    use crate::write_all;
    use std::alloc::Global;
    use std::io;
    use std::test::Fail;

    // Gives or takes a byte a call, nothing in its second call, and fails in its third.
    #[derive(Drop)]
    struct Choppy {
        turn: u8,
        got: Vec<u8>,
    }

    impl Choppy {
        fn count(&mut self) -> io::Result<bool> {
            self.turn = self.turn.saturating_add(1);
            if self.turn == 3 {
                return Err(io::ErrorKind::BrokenPipe.into());
            }
            Ok(self.turn != 2)
        }
    }

    impl Read for Choppy {
        fn read(&mut self, buf: &mut [u8]) -> io::Result<usize> {
            if !self.count()? || buf.is_empty() {
                return Ok(0);
            }
            buf[0] = b'a';
            Ok(1)
        }

        // Nobody calls this. It spares the proof of the trait's own body.
        fn read_exact(&mut self, _buf: &mut [u8]) -> io::Result<()> {
            Err(io::ErrorKind::Unsupported.into())
        }
    }

    impl Write for Choppy {
        fn write(&mut self, buf: &[u8]) -> io::Result<usize> {
            if !self.count()? || buf.is_empty() {
                return Ok(0);
            }
            self.got.push(buf[0])?;
            Ok(1)
        }

        // As `read_exact`.
        fn write_all(&mut self, _buf: &[u8]) -> io::Result<()> {
            Err(io::ErrorKind::Unsupported.into())
        }

        fn flush(&mut self) -> io::Result<()> {
            Ok(())
        }
    }

    fn new_stream(alloc: Global) -> Choppy {
        Choppy {
            turn: 0,
            got: Vec::new(alloc),
        }
    }

    #[test]
    fn each_error_is_a_fault(rt: HostRuntime) -> Result<(), Fail> {
        let mut source = StdSource::new(new_stream(rt.alloc()));
        let mut buf = [0u8; 2];
        let counts = [
            source.read(&mut buf),
            source.read(&mut buf),
            source.read(&mut buf),
            source.read(&mut buf),
        ];
        assert_eq!(rt; counts, [Ok(1), Ok(0), Err(Failed), Ok(1)]);
        assert_eq!(rt; (source.faults, buf), (1, [b'a', 0]));

        let mut sink = StdSink::new(new_stream(rt.alloc()));
        let outcomes = [
            write_all(&mut sink, b"xyz"),
            write_all(&mut sink, b"xyz"),
            write_all(&mut sink, b"xyz"),
        ];
        let failed = Err(SinkFailed::Failed);
        assert_eq!(rt; outcomes, [failed, failed, Ok(())]);
        assert_eq!(rt;
            (sink.faults, sink.writer.got.as_slice()),
            (2, b"xxyz".as_slice())
        );
        Ok(())
    }
}
