//! Runs of a world, drawn from a seed, that the diaries of its nodes tell again.

use crate::merges::merged;
use crate::net::{Act, Net};
use crate::told::told_in;
use lazy_core::World;
use lazy_msgs::WorldEvent;
use rec_id::Text;
use std::alloc::Global;
use std::process::Abort;
use std::test::Fail;
use view_config::{Edition, FIRST_SEQ, FIRST_SHARD, Mode, Shape};

/// A number below `below`, 0 where there is none.
fn drawn(seed: &mut u64, below: u32) -> u32 {
    *seed = seed
        .wrapping_mul(6_364_136_223_846_793_005)
        .wrapping_add(1_442_695_040_888_963_407);
    let high = u32::try_from(*seed >> 33).unwrap_or(0);
    high.checked_rem(below).unwrap_or(0)
}

/// Mostly the next message, up to this many sent, is delivered; some are so again, or before their turn.
fn drawn_act(seed: &mut u64, next: &mut u32, sent: u32) -> Act {
    match drawn(seed, 120) {
        0 => Act::Crash(FIRST_SEQ),
        1 | 2 => Act::Suspect(FIRST_SEQ),
        3 | 4 => Act::Read(drawn(seed, 2)),
        5 | 6 => Act::Tail(drawn(seed, 2)),
        7 | 8 => Act::Peek(drawn(seed, 2)),
        9 | 10 | 11 | 12 | 13 => Act::Post(drawn(seed, 2)),
        14 | 15 | 16 | 17 | 18 => Act::Tick(FIRST_SEQ.saturating_add(drawn(seed, 3))),
        19 => Act::Tick(drawn(seed, 2)),
        20 => Act::Grace(FIRST_SHARD),
        21 | 22 | 23 | 24 | 25 => Act::Deliver(drawn(seed, sent).saturating_add(1)),
        _ if *next > sent => Act::Post(drawn(seed, 2)),
        _ => {
            let number = *next;
            *next = number.saturating_add(1);
            Act::Deliver(number)
        }
    }
}

/// It happens in a world, unless that refuses it.
fn accepts(world: &mut World, event: &WorldEvent) -> bool {
    if world.events() < 1000 {
        return world.event(event).is_ok();
    }
    false
}

/// So many events happen in a world, each of them to the node with its diary too. What is told in the world, and what
/// its diaries tell.
fn run(
    rt: &impl Abort,
    alloc: Global,
    shape: &Shape,
    seed: &mut u64,
    all_hear: bool,
) -> Result<(Text, Text), Fail> {
    let mut world = World::new(alloc, shape)?;
    let mut net = Net::new(alloc, shape)?;
    let mut next = 1;
    for _ in 0..400 {
        let act = drawn_act(seed, &mut next, world.sent());
        let accepted = match net.event(alloc, act)? {
            Some(event) => accepts(&mut world, &event),
            None => true,
        };
        if accepted {
            net.happens(alloc, act, all_hear)?;
        }
    }
    let told = told_in(alloc, &world)?;
    Ok((told, merged(rt, alloc, shape, net.into_diaries(alloc)?)?))
}

/// Where each step of a world is heard of by all nodes, the diaries are merged into the world's own order.
#[test]
fn a_world_is_told_again(rt: HostRuntime) -> Result<(), Fail> {
    let alloc = rt.alloc();
    let shape = Shape::new(Mode::St, 3, 0, 1, 1, 2).ok_or("a shape")?;
    let mut seed = 1;
    for _ in 0..4 {
        let (world, diaries) = run(&rt, alloc, &shape, &mut seed, true)?;
        assert_eq!(rt; diaries.as_slice(), world.as_slice());
    }
    Ok(())
}

/// Where no node hears of another's steps but by messages, the diaries are merged into some order of a world.
#[test]
fn diaries_tell_a_world(rt: HostRuntime) -> Result<(), Fail> {
    let alloc = rt.alloc();
    let shape = Shape::of(Edition::Two, Mode::M, 3, 1, 2, 2, 2).ok_or("a shape")?;
    let mut seed = 2;
    for _ in 0..4 {
        let (_, diaries) = run(&rt, alloc, &shape, &mut seed, false)?;
        assert!(rt; diaries.len() > 0);
    }
    Ok(())
}
