//! Worked runs of a world, as tables of events with how each ends.

use lazy_core::{LineError, Note, Trail, World};
use lazy_msgs::{EventRefused, SuspectRefused, TrimRefused, WorldEvent};
use rec_id::{Ask, Bytes};
use std::alloc::Global;
use std::process::Abort;
use std::test::Fail;
use view_config::{CONTROLLER, Edition, Mode, Shape};

/// What happens in a world. A post is of the record `a`, by a client.
#[derive(Clone, Copy)]
enum Act {
    Post(u32),
    Read(u32, u32, u32),
    Tail(u32, u32),
    Trim(u32, u32),
    /// The client, the message, and the places from and to.
    Peek(u32, u32, u32, u32),
    Deliver(u32),
    Tick(u32),
    Grace(u32),
    Crash(u32),
    Suspect(u32),
}

/// An event, and how it is refused, if it is.
type Worked = (Act, Option<EventRefused>);

fn event(alloc: Global, act: Act) -> Result<WorldEvent, Fail> {
    match act {
        Act::Post(c) => Ok(WorldEvent::Post(c, Bytes::copy(alloc, b"a")?)),
        Act::Read(c, from, to) => Ok(WorldEvent::Ask(c, Ask::Range { from, to })),
        Act::Tail(c, from) => Ok(WorldEvent::Ask(c, Ask::Tail { from })),
        Act::Trim(c, floor) => Ok(WorldEvent::Trim(c, floor)),
        Act::Peek(client, message, from, to) => Ok(WorldEvent::Peek {
            client,
            message,
            from,
            to,
        }),
        Act::Deliver(k) => Ok(WorldEvent::Deliver(k)),
        Act::Tick(node) => Ok(WorldEvent::Tick(node)),
        Act::Grace(node) => Ok(WorldEvent::Grace(node)),
        Act::Crash(node) => Ok(WorldEvent::Crash(node)),
        Act::Suspect(node) => Ok(WorldEvent::Suspect(node)),
    }
}

fn happens(alloc: Global, world: &mut World, act: Act) -> Result<Option<EventRefused>, Fail> {
    if world.events() > 1000 {
        return Ok(Some(EventRefused::Spent));
    }
    match world.event(&event(alloc, act)?) {
        Ok(()) => Ok(None),
        Err(refused) => Ok(Some(refused)),
    }
}

/// Each of these happens, or is refused as it is said beside it.
fn happen(rt: &impl Abort, alloc: Global, world: &mut World, table: &[Worked]) -> Result<(), Fail> {
    for (act, refused) in table {
        assert_eq!(rt; happens(alloc, world, *act)?, *refused);
    }
    Ok(())
}

/// These messages are delivered, from the first number up to the end. Refusals are passed over.
fn flow(alloc: Global, world: &mut World, first: u32, end: u32) -> Result<(), Fail> {
    for k in first..end {
        let _ = happens(alloc, world, Act::Deliver(k))?;
    }
    Ok(())
}

/// An append is acknowledged and bound, the tail read, and the Claim of its place looked at.
#[test]
fn a_record_is_bound_and_read(rt: HostRuntime) -> Result<(), Fail> {
    let alloc = rt.alloc();
    let shape = Shape::new(Mode::M, 3, 0, 1, 1, 1).ok_or("a shape")?;
    let mut world = World::new(alloc, &shape)?;
    happen(&rt, alloc, &mut world, &[(Act::Post(0), None)])?;
    flow(alloc, &mut world, 1, 7)?;
    happen(&rt, alloc, &mut world, &[(Act::Tick(257), None)])?;
    flow(alloc, &mut world, 7, 15)?;
    happen(&rt, alloc, &mut world, &[(Act::Tail(0, 0), None)])?;
    flow(alloc, &mut world, 15, 25)?;
    happen(
        &rt,
        alloc,
        &mut world,
        &[
            (Act::Peek(0, 14, 0, 1), None),
            (Act::Peek(0, 14, 0, 2), Some(EventRefused::NotYet(1))),
            (Act::Peek(0, 13, 0, 1), Some(EventRefused::NotClaim(13))),
            (Act::Deliver(14), Some(EventRefused::IsClaim(14))),
            (Act::Grace(264), None),
        ],
    )?;
    assert_eq!(rt; (world.events(), world.sent()), (28, 24));
    assert_eq!(rt; (world.history().len(), world.holders()?.len()), (5, 3));
    assert!(rt; world.message(24).is_some() && world.message(25).is_none());
    assert_eq!(rt; world.shape().seq, 3);
    Ok(())
}

/// The leader crashes once a record stands at a shard in another order than the survivor's.
#[test]
fn a_survivor_decides(rt: HostRuntime) -> Result<(), Fail> {
    let alloc = rt.alloc();
    let shape = Shape::new(Mode::M, 2, 0, 1, 1, 2).ok_or("a shape")?;
    let mut world = World::new(alloc, &shape)?;
    happen(
        &rt,
        alloc,
        &mut world,
        &[
            (Act::Post(0), None),
            (Act::Post(1), None),
            (Act::Deliver(3), None),
            (Act::Deliver(1), None),
            (Act::Deliver(2), None),
            (Act::Tick(257), None),
            (Act::Deliver(8), None),
            (Act::Crash(257), None),
            (Act::Tick(257), Some(EventRefused::Crashed(257))),
            (
                Act::Suspect(0),
                Some(EventRefused::Suspect(SuspectRefused::NotInView)),
            ),
            (Act::Suspect(257), None),
        ],
    )?;
    flow(alloc, &mut world, 11, 18)?;
    happen(&rt, alloc, &mut world, &[(Act::Read(0, 0, 1), None)])?;
    flow(alloc, &mut world, 19, 21)?;
    assert_eq!(rt; (world.events(), world.sent()), (19, 20));
    let mut trail = Trail::new(alloc);
    assert_eq!(rt; world.line(258)?.len(), 1);
    happen(&rt, alloc, &mut world, &[(Act::Crash(264), None)])?;
    assert_eq!(rt; world.line(258).err(), Some(LineError::Lost(0)));
    let lines = world.lines(alloc)?;
    trail.fill(world, lines);
    assert_eq!(rt; (trail.lines.len(), trail.history.len()), (0, 4));
    Ok(())
}

/// Edition Two has trims, and edition One has none. Refusals come in their order.
#[test]
fn places_are_given_up(rt: HostRuntime) -> Result<(), Fail> {
    let alloc = rt.alloc();
    let two = Shape::of(Edition::Two, Mode::M, 1, 0, 1, 1, 1).ok_or("a shape")?;
    let mut world = World::new(alloc, &two)?;
    happen(&rt, alloc, &mut world, &[(Act::Post(0), None)])?;
    flow(alloc, &mut world, 1, 3)?;
    happen(&rt, alloc, &mut world, &[(Act::Tail(0, 0), None)])?;
    flow(alloc, &mut world, 3, 12)?;
    happen(
        &rt,
        alloc,
        &mut world,
        &[
            (
                Act::Trim(0, 2),
                Some(EventRefused::Trim(TrimRefused::Ahead(1))),
            ),
            (Act::Trim(0, 1), None),
        ],
    )?;
    flow(alloc, &mut world, 12, 14)?;
    happen(&rt, alloc, &mut world, &[(Act::Read(0, 0, 1), None)])?;
    flow(alloc, &mut world, 14, 16)?;
    assert_eq!(rt; (world.events(), world.sent()), (18, 15));

    let one = Shape::new(Mode::St, 1, 0, 1, 1, 1).ok_or("a shape")?;
    let mut world = World::new(alloc, &one)?;
    happen(
        &rt,
        alloc,
        &mut world,
        &[
            (Act::Deliver(0), Some(EventRefused::NoMessage(0))),
            (Act::Trim(0, 0), Some(EventRefused::NoTrim)),
            (Act::Tick(9), Some(EventRefused::NoNode(9))),
            (Act::Peek(9, 0, 0, 0), Some(EventRefused::NoNode(9))),
            (Act::Peek(0, 1, 0, 0), Some(EventRefused::NoMessage(1))),
            (
                Act::Crash(CONTROLLER),
                Some(EventRefused::NoNode(CONTROLLER)),
            ),
            (Act::Suspect(9), Some(EventRefused::NoNode(9))),
            (Act::Crash(0), None),
            (Act::Trim(0, 0), Some(EventRefused::Crashed(0))),
            (Act::Post(0), Some(EventRefused::Crashed(0))),
            (Act::Crash(0), Some(EventRefused::Crashed(0))),
        ],
    )?;
    assert_eq!(rt; (world.events(), world.sent()), (1, 0));
    Ok(())
}

/// Who holds the log is said of the states of its nodes alone.
#[test]
fn a_crashed_replica_holds_nothing(rt: HostRuntime) -> Result<(), Fail> {
    let alloc = rt.alloc();
    let shape = Shape::new(Mode::M, 1, 0, 1, 1, 1).ok_or("a shape")?;
    let mut world = World::new(alloc, &shape)?;
    assert_eq!(rt; world.snapshot().holders()?.len(), 1);
    assert_eq!(rt; world.snapshot().line(257).map(|line| line.len()), Ok(0));
    happen(&rt, alloc, &mut world, &[(Act::Crash(257), None)])?;
    assert_eq!(rt; world.snapshot().holders()?.len(), 0);
    assert_eq!(rt; Note { time: 1 }, Note { time: 1 });
    Ok(())
}
