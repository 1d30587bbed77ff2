//! Diaries merged: the run of their merge tells what their trail does.

use crate::net::{Act, Net};
use crate::told::{told_by, told_in};
use diary_merge::merge;
use lazy_core::World;
use lazy_msgs::DiaryList;
use node_diary::replay;
use rec_id::Text;
use std::alloc::Global;
use std::process::Abort;
use std::test::Fail;
use view_config::{Mode, Shape};

/// The events of the merge happen in a world, one after the other, and what is told there is what the trail has.
pub(crate) fn merged(
    rt: &impl Abort,
    alloc: Global,
    shape: &Shape,
    diaries: DiaryList,
) -> Result<Text, Fail> {
    let mut world = World::new(alloc, shape)?;
    let events = merge(alloc, shape, &diaries)?;
    for event in events.as_slice() {
        if world.events() < 1000 {
            assert_eq!(rt; world.event(event), Ok(()));
        }
    }
    let text = told_in(alloc, &world)?;
    let trail = replay(alloc, shape, diaries)?;
    assert_eq!(rt; told_by(alloc, &trail)?.as_slice(), text.as_slice());
    Ok(text)
}

/// The leader crashes once a record stands at a shard in another order than the survivor's.
#[test]
fn diaries_are_merged(rt: HostRuntime) -> Result<(), Fail> {
    let alloc = rt.alloc();
    let shape = Shape::new(Mode::M, 2, 0, 1, 1, 2).ok_or("a shape")?;
    let mut net = Net::new(alloc, &shape)?;
    let acts = [
        Act::Post(0),
        Act::Post(1),
        Act::Deliver(3),
        Act::Deliver(1),
        Act::Deliver(2),
        Act::Tick(257),
        Act::Deliver(8),
        Act::Crash(257),
        Act::Suspect(257),
        Act::Deliver(11),
        Act::Deliver(12),
        Act::Deliver(13),
        Act::Deliver(14),
        Act::Deliver(15),
        Act::Deliver(16),
        Act::Deliver(17),
        Act::Read(0),
        Act::Deliver(19),
        Act::Deliver(20),
    ];
    for act in acts {
        net.happens(alloc, act, false)?;
    }
    let told = merged(&rt, alloc, &shape, net.into_diaries(alloc)?)?;
    assert_eq!(rt;
        told.as_slice(),
        b"c0#1 invoked\nc1#1 invoked\nc0 read 1 begun: 0 to 1\nc0 read 1 answered: from 0, tail -: c0#1=a\nline s1: c0#1=a\n".as_slice()
    );
    Ok(())
}
