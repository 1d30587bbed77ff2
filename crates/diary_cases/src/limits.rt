//! The clock of a diary, and its limits, as tables of what a client does.

use crate::net::node_at;
use lazy_msgs::{Envelope, Input, Msg, PostRefused};
use node_diary::{DiaryNode, FeedRefused, Note};
use rec_id::Bytes;
use std::alloc::Global;
use std::process::Abort;
use std::test::Fail;
use view_config::{FIRST_SEQ, Mode, Shape};

/// What the client does: it hears of a time, is asked at a time, appends so many bytes, or ticks.
#[derive(Clone, Copy)]
enum Deed {
    Hear(u64),
    Asked(u64),
    Post(usize),
    Tick,
}

/// How it ends.
#[derive(Clone, Copy, Debug, PartialEq, Eq)]
enum End {
    Done,
    Late,
    Refused(FeedRefused),
}

/// How many times a deed is done and how it ends each time; then the number of entries, the time of the last, and the
/// node's own.
type Worked = (u32, Deed, End, (usize, u64, u64));

/// A client in its first state, with an empty diary.
fn a_client(alloc: Global) -> Result<DiaryNode, Fail> {
    let shape = Shape::new(Mode::M, 1, 0, 1, 1, 1).ok_or("a shape")?;
    node_at(alloc, &shape, 0)
}

fn hear(node: &mut DiaryNode, time: u64) -> End {
    match node.hear(Note { time }) {
        Ok(()) => End::Done,
        Err(_) => End::Late,
    }
}

fn feed(node: &mut DiaryNode, input: Input) -> End {
    match node.feed(input) {
        Ok(()) => End::Done,
        Err(refused) => End::Refused(refused),
    }
}

/// A question of the leader for the client's view, sent at this time.
fn question(time: u64) -> Input {
    Input::Take(Envelope {
        from: FIRST_SEQ,
        to: 0,
        time,
        msg: Msg::AskView,
    })
}

fn post(alloc: Global, size: usize) -> Result<Input, Fail> {
    let bytes = vec![in alloc; 7u8; size]?;
    Ok(Input::Post(Bytes::copy(alloc, bytes.as_slice())?))
}

fn happens(alloc: Global, node: &mut DiaryNode, deed: Deed) -> Result<End, Fail> {
    match deed {
        Deed::Hear(time) => Ok(hear(node, time)),
        Deed::Asked(time) => Ok(feed(node, question(time))),
        Deed::Post(size) => Ok(feed(node, post(alloc, size)?)),
        Deed::Tick => Ok(feed(node, Input::Tick)),
    }
}

/// The time of its last entry, 0 where it has none.
fn last_time(node: &DiaryNode) -> u64 {
    match node.last() {
        Some(entry) => entry.time,
        None => 0,
    }
}

/// How many entries it has, the time of the last, and its own.
fn stands(node: &DiaryNode) -> (usize, u64, u64) {
    (
        node.diary().entries.len(),
        last_time(node),
        node.note().time,
    )
}

/// The client does the same so many times.
fn repeat(
    rt: &impl Abort,
    alloc: Global,
    node: &mut DiaryNode,
    deed: Deed,
    end: End,
    count: u32,
) -> Result<(), Fail> {
    for _ in 0..count {
        assert_eq!(rt; happens(alloc, node, deed)?, end);
    }
    Ok(())
}

fn happen(
    rt: &impl Abort,
    alloc: Global,
    node: &mut DiaryNode,
    table: &[Worked],
) -> Result<(), Fail> {
    for (count, deed, end, left) in table {
        repeat(rt, alloc, node, *deed, *end, *count)?;
        assert_eq!(rt; stands(node), *left);
    }
    Ok(())
}

/// A client does all of the table, one after the other. How much it was told.
fn told_after(rt: &impl Abort, alloc: Global, table: &[Worked]) -> Result<usize, Fail> {
    let mut node = a_client(alloc)?;
    happen(rt, alloc, &mut node, table)?;
    Ok(node.told().len())
}

/// A step is later than what it receives. A tick that does nothing leaves no entry and no time.
#[test]
fn a_diary_has_a_clock(rt: HostRuntime) -> Result<(), Fail> {
    let table = [
        (1, Deed::Hear(2), End::Done, (0, 0, 2)),
        (1, Deed::Asked(5), End::Done, (1, 6, 6)),
        (1, Deed::Tick, End::Done, (1, 6, 6)),
        (1, Deed::Hear(1 << 40), End::Late, (1, 6, 6)),
    ];
    assert_eq!(rt; told_after(&rt, rt.alloc(), &table)?, 0);
    Ok(())
}

/// A node that hears of the last time takes no step behind it.
#[test]
fn the_last_time_is_heard(rt: HostRuntime) -> Result<(), Fail> {
    let last = (1 << 40) - 1;
    let spent = End::Refused(FeedRefused::ClockSpent);
    let table = [
        (1, Deed::Hear(last), End::Done, (0, 0, last)),
        (1, Deed::Post(0), spent, (0, 0, last)),
    ];
    assert_eq!(rt; told_after(&rt, rt.alloc(), &table)?, 0);
    Ok(())
}

/// One step is left before the last time.
#[test]
fn a_clock_is_spent(rt: HostRuntime) -> Result<(), Fail> {
    let last = (1 << 40) - 1;
    let spent = End::Refused(FeedRefused::ClockSpent);
    let table = [
        (1, Deed::Hear(last - 1), End::Done, (0, 0, last - 1)),
        (1, Deed::Post(0), End::Done, (1, last, last)),
        (2, Deed::Post(0), spent, (1, last, last)),
    ];
    assert_eq!(rt; told_after(&rt, rt.alloc(), &table)?, 1);
    Ok(())
}

/// A client that resends many appends fills its diary.
#[test]
fn a_diary_is_full(rt: HostRuntime) -> Result<(), Fail> {
    let full = End::Refused(FeedRefused::DiaryFull);
    let table = [
        (256, Deed::Post(4096), End::Done, (256, 256, 256)),
        (942, Deed::Tick, End::Done, (1198, 1198, 1198)),
        (2, Deed::Tick, full, (1198, 1198, 1198)),
    ];
    assert_eq!(rt; told_after(&rt, rt.alloc(), &table)?, 256);
    Ok(())
}

/// An input that no diary has room for is refused before the node sees it.
#[test]
fn a_post_is_too_heavy(rt: HostRuntime) -> Result<(), Fail> {
    let long = End::Refused(FeedRefused::Post(PostRefused::TooLong));
    let full = End::Refused(FeedRefused::DiaryFull);
    let table = [
        (1, Deed::Post(33_554_432), long, (0, 0, 0)),
        (1, Deed::Post(33_554_433), full, (0, 0, 0)),
    ];
    assert_eq!(rt; told_after(&rt, rt.alloc(), &table)?, 0);
    Ok(())
}
