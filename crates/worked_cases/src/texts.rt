//! Texts as a script reads and a trace prints them.

use lazy_msgs::EventRefused;
use log_law::Verdict;
use plain_lists::Sequence;
use rec_id::{Bytes, Entry, Event, Line, RecordId, Text};
use std::alloc::Global;
use std::process::Abort;
use std::test::Fail;
use trace_script::{
    Command, NodeWord, print_bad_line, print_end, print_event, print_frame, print_limit,
    print_line, print_lost, print_lost_verdict, print_no_holder, print_no_node, print_read_fault,
    print_refused, print_verdict, read_line,
};

fn line_of(alloc: Global) -> Result<Line, Fail> {
    let mut line = Sequence::new(alloc);
    line.push(Entry::Kept(RecordId::new(0, 1)?, Bytes::copy(alloc, b"a")?))?;
    line.push(Entry::Noop(RecordId::new(0, 2)?))?;
    line.push(Entry::Gone(RecordId::new(1, 1)?))?;
    Ok(line)
}

fn is_printed(rt: &impl Abort, out: &Text, want: &[u8]) {
    assert_eq!(rt; out.as_slice(), want);
}

#[test]
fn texts_are_printed(rt: HostRuntime) -> Result<(), Fail> {
    let alloc = rt.alloc();
    let mut out = Sequence::new(alloc);
    let answer = Event::Answer {
        client: 0,
        read: 1,
        from: 0,
        entries: line_of(alloc)?,
        tail: Some(3),
    };
    print_event(alloc, &answer, &mut out)?;
    is_printed(
        &rt,
        &out,
        b"c0 read 1 answered: from 0, tail 3: c0#1=a c0#2! c1#1~",
    );
    out.truncate(0);
    print_refused(alloc, &EventRefused::Crashed(264), &mut out)?;
    print_no_node(alloc, &NodeWord::Shard(1, 9), &mut out)?;
    is_printed(&rt, &out, b"refused: d0.0 crashedrefused: no node d1.9");
    out.truncate(0);
    print_line(alloc, 256, &line_of(alloc)?, &mut out)?;
    print_lost(alloc, 257, 1, &mut out)?;
    print_no_holder(alloc, &mut out)?;
    is_printed(
        &rt,
        &out,
        b"line taken: c0#1=a c0#2! c1#1~line s0: lost shard 1no holder",
    );
    out.truncate(0);
    let broken = Verdict::Broken {
        clause: 3,
        first: 1,
        second: 0,
    };
    print_verdict(alloc, 257, broken, &mut out)?;
    print_verdict(alloc, 256, Verdict::Lawful, &mut out)?;
    print_lost_verdict(alloc, 257, 1, &mut out)?;
    print_frame(alloc, 1, 264, 296, &[0, 171], &mut out)?;
    is_printed(
        &rt,
        &out,
        b"law s0: broken c 1 0law taken: lawfullaw s0: lost shard 1message 1: d0.0 to board: 00ab",
    );
    out.truncate(0);
    print_end(alloc, 7, 6, &mut out)?;
    print_bad_line(alloc, 4, &mut out)?;
    print_limit(alloc, 5, &mut out)?;
    print_read_fault(alloc, &mut out)?;
    is_printed(
        &rt,
        &out,
        b"end: 7 events, 6 messagesstopped: bad line 4stopped: limit at 5stopped: read fault",
    );
    Ok(())
}

#[test]
fn an_append_is_read(rt: HostRuntime) -> Result<(), Fail> {
    let Command::Append(client, bytes) = read_line(rt.alloc(), b"append c300 a=b")? else {
        return Err(Fail::new("no append"));
    };
    assert_eq!(rt; client, NodeWord::Client(300));
    assert_eq!(rt; bytes.as_slice(), b"a=b".as_slice());
    Ok(())
}
