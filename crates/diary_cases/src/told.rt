//! What clients did and were told, and the lines of the holders, as a trace prints them.

use lazy_core::{HolderLine, Trail, World};
use plain_lists::Sequence;
use rec_id::{Event, Text};
use std::alloc::Global;
use std::test::Fail;
use trace_script::{print_event, print_line};

fn text_of(alloc: Global, history: &[Event], lines: &[HolderLine]) -> Result<Text, Fail> {
    let mut text = Sequence::new(alloc);
    for event in history {
        print_event(alloc, event, &mut text)?;
        text.push(b'\n')?;
    }
    for held in lines {
        print_line(alloc, held.holder, &held.line, &mut text)?;
        text.push(b'\n')?;
    }
    Ok(text)
}

/// What is told of a world so far.
pub(crate) fn told_in(alloc: Global, world: &World) -> Result<Text, Fail> {
    let lines = world.lines(alloc)?;
    text_of(alloc, world.history(), lines.as_slice())
}

/// What is told in a trail.
pub(crate) fn told_by(alloc: Global, trail: &Trail) -> Result<Text, Fail> {
    text_of(alloc, trail.history.as_slice(), trail.lines.as_slice())
}
