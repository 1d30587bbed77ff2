//! The texts of what is shown: the holders, a message, and what the history gained. They are collected, each with
//! its newline.

ghost use Rattle.std.specs.Prelude.{◌≡◌, ◌+◌, ◌^◌, ◌<◌, ◌++◌, [], ◌∷◌, map, true, OnOk, OnErr};
ghost use Rattle.lazy_rules.specs.Holders.{holders};
ghost use Rattle.lazy_rules.specs.Rows.{has_node};
ghost use Rattle.lazylog_trace.specs.declared.action.Asked.TheVariants.{Line, Verdict};
ghost use Rattle.script_streams.specs.Texts.{with_newline};
ghost use Rattle.lazylog_trace.specs.Shown.{event_texts, holder_text, holder_texts, message_shown};

use crate::action::Asked;
use lazy_core::{LineError, World};
use lazy_msgs::EventRefused;
use log_law::check;
use plain_lists::Sequence;
use rec_id::{Event, Text, TextList};
use std::alloc::{AllocError, Global};
use trace_script::{
    print_event, print_frame, print_line, print_lost, print_lost_verdict, print_no_holder,
    print_refused, print_verdict,
};
use wire_frames::encode;

pub fn add_text(texts: &mut TextList, mut text: Text) -> Result<(), AllocError>
    ensures ok { OnOk result (texts.new ≡ texts.old ++ with_newline text ∷ []) }
    ensures err { OnErr result (texts.new ≡ texts.old) }
{
    text.push(b'\n')?;
    texts.push(text)
}

/// The line of one holder.
fn show_line(
    alloc: Global,
    world: &World,
    holder: u32,
    texts: &mut TextList,
) -> Result<(), AllocError>
    requires { has_node (holders world.now) holder ≡ true }
    ensures { OnOk result (texts.new ≡ texts.old ++ holder_text world.now Line holder ∷ []) }
{
    let mut text = Sequence::new(alloc);
    match world.line(holder) {
        Ok(line) => print_line(alloc, holder, &line, &mut text)?,
        Err(LineError::Lost(shard)) => print_lost(alloc, holder, shard, &mut text)?,
        Err(LineError::Memory) => return Err(AllocError),
    }
    add_text(texts, text)
}

/// What the law says of the line of one holder.
fn show_verdict(
    alloc: Global,
    world: &World,
    holder: u32,
    texts: &mut TextList,
) -> Result<(), AllocError>
    requires holds { has_node (holders world.now) holder ≡ true }
    requires countable { world.now.events < 2 ^ 31 }
    ensures { OnOk result (texts.new ≡ texts.old ++ holder_text world.now Verdict holder ∷ []) }
{
    let mut text = Sequence::new(alloc);
    match world.line(holder) {
        Ok(line) => {
            let verdict = check(alloc, world.history(), &line)?;
            print_verdict(alloc, holder, verdict, &mut text)?
        }
        Err(LineError::Lost(shard)) => print_lost_verdict(alloc, holder, shard, &mut text)?,
        Err(LineError::Memory) => return Err(AllocError),
    }
    add_text(texts, text)
}

fn show_holder(
    alloc: Global,
    world: &World,
    asked: Asked,
    holder: u32,
    texts: &mut TextList,
) -> Result<(), AllocError>
    requires holds { has_node (holders world.now) holder ≡ true }
    requires countable { world.now.events < 2 ^ 31 }
    ensures { OnOk result (texts.new ≡ texts.old ++ holder_text world.now asked holder ∷ []) }
{
    match asked {
        Asked::Line => show_line(alloc, world, holder, texts),
        Asked::Verdict => show_verdict(alloc, world, holder, texts),
    }
}

/// These holders, who are all.
fn show_each(
    alloc: Global,
    world: &World,
    asked: Asked,
    nodes: &[u32],
    texts: &mut TextList,
) -> Result<(), AllocError>
    requires holders { nodes.now ≡ holders world.now }
    requires countable { world.now.events < 2 ^ 31 }
    ensures { OnOk result (texts.new ≡ texts.old ++ map (holder_text world.now asked) nodes.now) }
{
    for holder in nodes {
        show_holder(alloc, world, asked, *holder, texts)?;
    }
    Ok(())
}

/// Each holder.
pub fn show_holders(
    alloc: Global,
    world: &World,
    asked: Asked,
    texts: &mut TextList,
) -> Result<(), AllocError>
    requires countable { world.now.events < 2 ^ 31 }
    ensures { OnOk result (texts.new ≡ texts.old ++ holder_texts world.now asked (holders world.now)) }
{
    let holders = world.holders()?;
    if holders.is_empty() {
        let mut text = Sequence::new(alloc);
        print_no_holder(alloc, &mut text)?;
        return add_text(texts, text);
    }
    show_each(alloc, world, asked, holders.as_slice(), texts)
}

/// The message with this number, as its frame in the edition of the shape.
pub fn show_message(
    alloc: Global,
    world: &World,
    number: u32,
    texts: &mut TextList,
) -> Result<(), AllocError>
    ensures { OnOk result (texts.new ≡ texts.old ++ with_newline (message_shown world.now number) ∷ []) }
{
    let mut text = Sequence::new(alloc);
    match world.message(number) {
        Some(message) => {
            let frame = encode(alloc, world.shape().edition, message)?;
            print_frame(
                alloc,
                number,
                message.from,
                message.to,
                frame.as_slice(),
                &mut text,
            )?
        }
        None => print_refused(alloc, &EventRefused::NoMessage(number), &mut text)?,
    }
    add_text(texts, text)
}

/// Events of the history, in order.
pub fn show_events(alloc: Global, events: &[Event], texts: &mut TextList) -> Result<(), AllocError>
    ensures { OnOk result (texts.new ≡ texts.old ++ event_texts events.now) }
{
    for event in events {
        let mut text = Sequence::new(alloc);
        print_event(alloc, event, &mut text)?;
        add_text(texts, text)?;
    }
    Ok(())
}
