//! Whole scripts: what is written, what they end with, and streams that fail.

use super::*;
use io_edges::{MemSink, MemSource};
use std::process::Abort;
use std::test::Fail;

/// The frame of an append, in each edition, a line each.
const ONE: &[u8] = b"010100000101000000000000000100000001000000000101000161\n";

const TWO: &[u8] = b"0201000001010000000000000001000000010000000001010000000161\n";

/// What is written for a byte that begins a frame, at the end, and at what stops a script.
const SHORT: &[u8] = b"refused: short\n";

const NO_FRAME: &[u8] = b"end: 0 frames, 0 refused\n";

const ONE_FRAME: &[u8] = b"end: 1 frames, 0 refused\n";

const TWO_FRAMES: &[u8] = b"end: 2 frames, 1 refused\n";

const BAD_LINE: &[u8] = b"stopped: bad line 2\n";

const READ_FAULT: &[u8] = b"stopped: read fault\n";

fn joined(alloc: Global, parts: &[&[u8]]) -> Result<Vec<u8>, Fail> {
    let mut bytes = Vec::new(alloc);
    for part in parts {
        bytes.extend_from_slice(part)?;
    }
    Ok(bytes)
}

/// Brings the script over, where these reads and writes fail, and compares the exit status and what was written.
fn recodes(
    rt: &impl Abort,
    alloc: Global,
    script: &[u8],
    fails: (&[u64], &[u64]),
    status: u8,
    written: &[&[u8]],
) -> Result<(), Fail> {
    let mut source = MemSource::new(alloc, script, fails.0)?;
    let mut sink = MemSink::new(alloc, fails.1)?;
    let ended = recode_top(alloc, &mut source, &mut sink);
    assert_eq!(rt; ended.code(), status);
    assert_eq!(rt; sink.written(), joined(alloc, written)?.as_slice());
    Ok(())
}

#[test]
fn scripts_are_brought_over(rt: HostRuntime) -> Result<(), Fail> {
    let none = [].as_slice();
    for (script, status, written) in [
        (ONE, 0, [TWO, ONE_FRAME].as_slice()),
        (TWO, 0, [TWO, ONE_FRAME].as_slice()),
        (b"\n\n".as_slice(), 0, [NO_FRAME].as_slice()),
        (b"01\n#\n".as_slice(), 3, [SHORT, BAD_LINE].as_slice()),
    ] {
        recodes(&rt, rt.alloc(), script, (none, none), status, written)?;
    }
    Ok(())
}

/// The first write fails, the second, and that of the last text; the first read, and the second.
#[test]
fn streams_fail(rt: HostRuntime) -> Result<(), Fail> {
    let none = [].as_slice();
    let script = joined(rt.alloc(), &[ONE, b"\n01\n"])?;
    for (reads, writes, status, written) in [
        (none, none, 0, [TWO, SHORT, TWO_FRAMES].as_slice()),
        (none, [1].as_slice(), 5, [].as_slice()),
        (none, [2].as_slice(), 5, [TWO].as_slice()),
        (none, [3].as_slice(), 5, [TWO, SHORT].as_slice()),
        ([1].as_slice(), none, 4, [READ_FAULT].as_slice()),
        ([2].as_slice(), none, 4, [TWO, SHORT, READ_FAULT].as_slice()),
    ] {
        recodes(&rt, rt.alloc(), &script, (reads, writes), status, written)?;
    }
    Ok(())
}

/// A line of 140,000 bytes is read, and one byte more is too much; and so is line 100,001.
#[test]
fn limits_stop(rt: HostRuntime) -> Result<(), Fail> {
    let none = [].as_slice();
    for (byte, count, status, written) in [
        (
            b'0',
            140_000,
            0,
            b"refused: field 0\nend: 1 frames, 1 refused\n".as_slice(),
        ),
        (b'0', 140_001, 3, b"stopped: bad line 1\n".as_slice()),
        (b'\n', 100_000, 0, NO_FRAME),
        (b'\n', 100_001, 7, b"stopped: limit at 100001\n".as_slice()),
    ] {
        let script = Vec::from_elem(rt.alloc(), byte, count)?;
        recodes(&rt, rt.alloc(), &script, (none, none), status, &[written])?;
    }
    Ok(())
}
