//! The words of a seed and the steps that they draw, worked out by hand, and a whole load.

use lazy_core::World;
use lazy_msgs::WorldEvent;
use load_gen::{Load, LoadGen, LoadStep, Outcome, summary};
use rand_core::SeedableRng;
use rand_core::utils::NextWord;
use rand_pcg::Pcg32;
use rec_id::{Ask, Bytes};
use std::alloc::Global;
use std::process::Abort;
use std::test::Fail;
use view_config::{Mode, Shape};

/// The words of seed 7, by an independent generator.
const WORDS: [u32; 4] = [2_442_223_337, 414_063_806, 2_743_600_285, 3_524_868_804];

#[test]
fn the_words_of_a_seed(rt: HostRuntime) -> Result<(), Fail> {
    let mut words = Pcg32::seed_from_u64(7);
    for word in WORDS {
        assert_eq!(rt; words.next_word(), word);
    }
    Ok(())
}

/// A step as it is drawn, with its numbers.
#[derive(Clone, Copy, Debug, PartialEq, Eq)]
enum Drawn {
    /// The client, and how many digits the data has.
    Post(u32, usize),
    Tail(u32, u32),
    Deliver(u32),
    Tick(u32),
    Grace(u32),
    Suspect(u32),
    Skip,
    Other,
}

fn shown(step: &LoadStep) -> Drawn {
    match step {
        LoadStep::Make(WorldEvent::Post(client, bytes)) => {
            Drawn::Post(*client, bytes.as_slice().len())
        }
        LoadStep::Make(WorldEvent::Ask(client, Ask::Tail { from })) => Drawn::Tail(*client, *from),
        LoadStep::Make(WorldEvent::Deliver(message)) => Drawn::Deliver(*message),
        LoadStep::Make(WorldEvent::Tick(node)) => Drawn::Tick(*node),
        LoadStep::Make(WorldEvent::Grace(node)) => Drawn::Grace(*node),
        LoadStep::Make(WorldEvent::Suspect(node)) => Drawn::Suspect(*node),
        LoadStep::Skip => Drawn::Skip,
        _ => Drawn::Other,
    }
}

/// The first steps of seed 7 where three clients have three sequencing replicas, a spare, and two shards of two
/// replicas, and three messages were sent.
const STEPS: [Drawn; 12] = [
    Drawn::Deliver(1),
    Drawn::Tail(0, 25),
    Drawn::Grace(265),
    Drawn::Deliver(1),
    Drawn::Tick(256),
    Drawn::Grace(268),
    Drawn::Deliver(2),
    Drawn::Post(1, 1),
    Drawn::Deliver(1),
    Drawn::Deliver(2),
    Drawn::Tick(259),
    Drawn::Post(2, 2),
];

fn draws(rt: &impl Abort, alloc: Global, world: &World, want: &[Drawn]) -> Result<(), Fail> {
    let mut generator = LoadGen::new(7);
    for drawn_so in want {
        assert_eq!(rt; shown(&generator.next(alloc, world)?), *drawn_so);
    }
    Ok(())
}

#[test]
fn the_first_steps_of_a_seed(rt: HostRuntime) -> Result<(), Fail> {
    let alloc = rt.alloc();
    let shape = Shape::new(Mode::M, 3, 1, 2, 2, 3).ok_or("a shape")?;
    let mut world = World::new(alloc, &shape)?;
    draws(&rt, alloc, &world, &[Drawn::Skip, Drawn::Tail(0, 25)])?;
    if world.events() == 0 {
        world.event(&WorldEvent::Post(0, Bytes::copy(alloc, b"a")?))?;
    }
    draws(&rt, alloc, &world, &STEPS)
}

/// What a load prints, by an independent simulation.
const LINE: &[u8] =
    b"{\"acked\":429,\"answered\":5,\"events\":16133,\"invoked\":1159,\"lawful\":3,\"messages\":17999,\"refused\":3866,\"rejected\":0}";

#[test]
fn a_whole_load(rt: HostRuntime) -> Result<(), Fail> {
    let alloc = rt.alloc();
    let shape = Shape::new(Mode::M, 3, 1, 2, 2, 3).ok_or("a shape")?;
    let mut load = Load::new(alloc, &shape, 7)?;
    assert_eq!(rt; load.run(alloc)?, Outcome::Through);
    let line = summary(alloc, &load.counts(alloc)?)?;
    assert_eq!(rt; line.as_slice(), LINE);
    Ok(())
}
