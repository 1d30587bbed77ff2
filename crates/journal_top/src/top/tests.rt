//! Whole scripts: what is written, and what they end with.

use super::*;
use io_edges::{MemSink, MemSource};
use std::process::Abort;
use std::test::Fail;

const ALONE: &[u8] = b"journal m 0 1";

fn words_of(alloc: Global, line: &[u8]) -> Result<TextList, Fail> {
    let mut words = Sequence::new(alloc);
    let mut word = Vec::new(alloc);
    for byte in line {
        if *byte == b' ' {
            words.push(Text::from_vec(word))?;
            word = Vec::new(alloc);
        } else {
            word.push(*byte)?;
        }
    }
    words.push(Text::from_vec(word))?;
    Ok(words)
}

/// Runs the script with these words, where these reads and writes fail, and compares what it ends with and what
/// was written.
fn runs(
    rt: &impl Abort,
    alloc: Global,
    words: &[u8],
    script: &[u8],
    fails: (&[u64], &[u64]),
    status: u8,
    written: &[u8],
) -> Result<(), Fail> {
    let mut source = MemSource::new(alloc, script, fails.0)?;
    let mut sink = MemSink::new(alloc, fails.1)?;
    let ended = journal_top(alloc, &words_of(alloc, words)?, &mut source, &mut sink);
    assert_eq!(rt; ended.code(), status);
    assert_eq!(rt; sink.written(), written);
    Ok(())
}

fn joined(alloc: Global, parts: &[&[u8]]) -> Result<Vec<u8>, Fail> {
    let mut bytes = Vec::new(alloc);
    for part in parts {
        bytes.extend_from_slice(part)?;
    }
    Ok(bytes)
}

/// So many times these bytes.
fn many(alloc: Global, count: u32, bytes: &[u8]) -> Result<Vec<u8>, Fail> {
    let mut all = Vec::new(alloc);
    for _time in 0..count {
        all.extend_from_slice(bytes)?;
    }
    Ok(all)
}

#[test]
fn scripts_are_followed(rt: HostRuntime) -> Result<(), Fail> {
    let none = ([].as_slice(), [].as_slice());
    for (words, script, status, written) in [
        (
            ALONE,
            b"add c0#1=a\nstable 1\nkeep\nshow\nstop 3\nadd c0#2!\nstable 2\nkeep\nopen\nkeep\n".as_slice(),
            0,
            b"kept to 1\n0100000017000000000000000100010000000000000000010100016100\nrefused: disk fault\nopened: kept to 1: c0#1=a\nkept to 2\nend: 2 kept\n".as_slice(),
        ),
        (
            b"journal m 0 2",
            b"show\nadd c0#1\nstable 1\nkeep\n",
            0,
            b"00\nrefused: place\nrefused: stable\nkept to 0\nend: 0 kept\n",
        ),
        // Another shard's places are passed over, and aren't told.
        (
            b"journal m 1 2",
            b"add c0#1\nadd c0#2=b\nadd c0#3\nstable 3\nkeep\nopen\n",
            0,
            b"kept to 3\nopened: kept to 3: c0#2=b\nend: 3 kept\n",
        ),
        // In Erwin-st the identity tells the shard.
        (
            b"journal st 1 2",
            b"add c0#1=a\nadd c0#2=b\nadd c0#2\n\n# nothing\nstable 2\nkeep",
            0,
            b"refused: place\nkept to 2\nend: 2 kept\n",
        ),
        // Closed until it is opened again, and what was stable before is as it was.
        (
            ALONE,
            b"add c0#1!\nstable 1\nstop 1\nkeep\nkeep\nshow\nstable 0\nopen\nopen\nkeep\nkeep\n",
            0,
            b"refused: disk fault\nrefused: closed\n00\nrefused: stable\nopened: kept to 0: -\nopened: kept to 0: -\nkept to 1\nkept to 1\nend: 1 kept\n",
        ),
        (ALONE, b"", 0, b"end: 0 kept\n"),
        (b"journal m 1 1", b"show\n", 2, b"usage\n"),
        (b"journal m 0 9", b"show\n", 2, b"usage\n"),
        (b"journal m 00 1", b"show\n", 2, b"usage\n"),
        (b"journal m2 0 1", b"show\n", 2, b"usage\n"),
        (b"trace m 0 1", b"show\n", 2, b"usage\n"),
        (b"journal m 0", b"show\n", 2, b"usage\n"),
        (b"journal m 0 1 1", b"show\n", 2, b"usage\n"),
        (b"journal st 7 8", b"show\n", 0, b"00\nend: 0 kept\n"),
    ] {
        runs(&rt, rt.alloc(), words, script, none, status, written)?;
    }
    Ok(())
}

#[test]
fn lines_out_of_form_stop_a_script(rt: HostRuntime) -> Result<(), Fail> {
    let none = ([].as_slice(), [].as_slice());
    for line in [
        b"add".as_slice(),
        b"add c256#1!",
        b"add c0#0!",
        b"add c0#4294967296!",
        b"add c0#1=",
        b"add c0#1!!",
        b"add c0#1!=a",
        b"add c00#1",
        b"add k0#1",
        b"add c0 1",
        b"add c0#1=a b",
        b"stable",
        b"stable -1",
        b"stable 01",
        b"keep 1",
        b"keep ",
        b"Keep",
        b"stop 0",
        b"stop",
        b"open 1",
        b" show",
    ] {
        let script = joined(rt.alloc(), &[b"\n", line, b"\nshow\n"])?;
        runs(
            &rt,
            rt.alloc(),
            ALONE,
            &script,
            none,
            3,
            b"stopped: bad line 2\n",
        )?;
    }
    Ok(())
}

/// A power failure before, inside and behind each device call of a keep: what was kept is there, and nothing else.
#[test]
fn the_disk_stops_at_each_call_of_a_keep(rt: HostRuntime) -> Result<(), Fail> {
    let none = ([].as_slice(), [].as_slice());
    let begin = b"add c0#1=a\nadd c0#2=b\nstable 1\nkeep\nstable 2\nstop ".as_slice();
    let end = b"\nkeep\nopen\n".as_slice();
    let lost =
        b"kept to 1\nrefused: disk fault\nopened: kept to 1: c0#1=a\nend: 1 kept\n".as_slice();
    let kept = b"kept to 1\nkept to 2\nopened: kept to 2: c0#1=a c0#2=b\nend: 2 kept\n".as_slice();
    for (call, written) in [
        (b"1".as_slice(), lost),
        (b"2", lost),
        (b"3", lost),
        (b"4", lost),
        (b"5", kept),
    ] {
        let script = joined(rt.alloc(), &[begin, call, end])?;
        runs(&rt, rt.alloc(), ALONE, &script, none, 0, written)?;
    }
    Ok(())
}

/// A script of so many pieces runs to its end, and one of a piece more stops.
fn stops_behind(
    rt: &impl Abort,
    alloc: Global,
    begin: &[u8],
    count: u32,
    piece: &[u8],
    stopped: (u8, &[u8]),
) -> Result<(), Fail> {
    let none = ([].as_slice(), [].as_slice());
    let most = joined(alloc, &[begin, &many(alloc, count, piece)?])?;
    let over = joined(alloc, &[&most, piece])?;
    runs(rt, alloc, ALONE, &most, none, 0, b"end: 0 kept\n")?;
    runs(rt, alloc, ALONE, &over, none, stopped.0, stopped.1)
}

#[test]
fn scripts_have_limits(rt: HostRuntime) -> Result<(), Fail> {
    for (begin, count, piece, status, stopped) in [
        (
            b"".as_slice(),
            65_536,
            b"add c0#1!\n".as_slice(),
            7,
            b"stopped: limit at 65537\n".as_slice(),
        ),
        (b"", 100_000, b"\n", 7, b"stopped: limit at 100001\n"),
        (b"#", 4_999, b"#", 3, b"stopped: bad line 1\n"),
        (b"add c0#1=", 4_096, b"a", 3, b"stopped: bad line 1\n"),
    ] {
        stops_behind(&rt, rt.alloc(), begin, count, piece, (status, stopped))?;
    }
    Ok(())
}

/// The first write fails, and that of the last text; the first read, and the second.
#[test]
fn streams_fail(rt: HostRuntime) -> Result<(), Fail> {
    let none = [].as_slice();
    for (reads, writes, status, written) in [
        (none, [1].as_slice(), 5, b"".as_slice()),
        (none, [2].as_slice(), 5, b"00\n"),
        ([1].as_slice(), none, 4, b"stopped: read fault\n"),
        ([2].as_slice(), none, 4, b"00\nstopped: read fault\n"),
    ] {
        runs(
            &rt,
            rt.alloc(),
            ALONE,
            b"show\n",
            (reads, writes),
            status,
            written,
        )?;
    }
    Ok(())
}
