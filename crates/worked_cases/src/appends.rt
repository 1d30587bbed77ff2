//! Worked rows, as tables of inputs with what each sends and tells.

use append_client::{AppendClient, AppendState};
use lazy_msgs::{Envelope, Input, Msg, Outbox, PostRefused, StepRefused};
use rec_id::{Bytes, Event, RecordId};
use std::alloc::Global;
use std::process::Abort;
use std::test::Fail;
use view_config::{Config, Edition, Mode, Shape};

/// An input. An acknowledgement has its view, the replica that it comes of, and the number of the
/// append.
#[derive(Clone, Copy)]
enum Do {
    Post,
    Ack(u32, u32, u32),
    Data(u32, u32, u32),
    Reject(u32),
    View(u32),
    Tick,
}

fn identity(number: u32) -> Result<RecordId, Fail> {
    match RecordId::new(0, number) {
        Ok(id) => Ok(id),
        Err(_) => Err("no identity")?,
    }
}

fn taken(from: u32, msg: Msg) -> Input {
    Input::Take(Envelope {
        from,
        to: 0,
        time: 1,
        msg,
    })
}

fn input(alloc: Global, shape: &Shape, what: Do) -> Result<Input, Fail> {
    Ok(match what {
        Do::Post => Input::Post(Bytes::copy(alloc, b"a")?),
        Do::Ack(view, from, number) => {
            let id = identity(number)?;
            taken(from, Msg::AppendAck { view, id })
        }
        Do::Data(view, from, number) => {
            let id = identity(number)?;
            taken(from, Msg::DataAck { view, id })
        }
        Do::Reject(number) => {
            let id = identity(number)?;
            taken(264, Msg::Rejected { id, place: 7 })
        }
        Do::View(view) => {
            let mut config = Config::initial(alloc, shape)?;
            config.view = view;
            taken(256, Msg::ViewIs { config })
        }
        Do::Tick => Input::Tick,
    })
}

/// What was sent, a letter, the node and the number each, and what was told.
fn shown(alloc: Global, out: &Outbox) -> Result<Vec<u8>, Fail> {
    let mut text = Vec::new(alloc);
    for send in out.sends().as_slice() {
        let (kind, number) = match &send.1 {
            Msg::Append { id, .. } => ("a", id.number()),
            Msg::Put { id, .. } => ("p", id.number()),
            _ => ("?", 0),
        };
        let part = format!(in alloc; "{kind}{}.{number} ", send.0)?;
        text.extend_from_slice(part.as_bytes())?;
    }
    for event in out.events().as_slice() {
        let (kind, number) = match event {
            Event::Invoke(id, _) => ("I", id.number()),
            Event::Acked(id) => ("A", id.number()),
            Event::Rejected(id, _) => ("R", id.number()),
            _ => ("?", 0),
        };
        let part = format!(in alloc; "{kind}{number} ")?;
        text.extend_from_slice(part.as_bytes())?;
    }
    Ok(text)
}

fn first(alloc: Global, shape: &Shape) -> Result<AppendClient, Fail> {
    if shape.clients < 1 {
        return Err("no client")?;
    }
    Ok(AppendClient::new(alloc, shape, 0)?)
}

/// The client takes this input, and sends and tells `want`.
fn takes(
    alloc: Global,
    shape: &Shape,
    client: &mut AppendClient,
    what: Do,
    want: &str,
) -> Result<(), Fail> {
    let mut out = Outbox::new(alloc, 4_096, 1_000_000);
    let input = input(alloc, shape, what)?;
    client.step(&input, &mut out).ok().ok_or("a refused step")?;
    if shown(alloc, &out)?.as_slice() == want.as_bytes() {
        Ok(())
    } else {
        Err("another outcome")?
    }
}

#[test]
fn sends_until_all_acknowledged(rt: HostRuntime) -> Result<(), Fail> {
    let shape = Shape::of(Edition::Two, Mode::M, 2, 0, 1, 1, 1).ok_or("a shape")?;
    let mut client = first(rt.alloc(), &shape)?;
    for (what, want) in [
        (Do::Post, "a257.1 a258.1 I1 "),
        (Do::Ack(1, 257, 1), ""),
        (Do::Ack(1, 257, 1), ""),
        (Do::Tick, "a258.1 "),
        (Do::View(2), "a257.1 a258.1 "),
        (Do::View(1), ""),
        (Do::Ack(1, 258, 1), ""),
        (Do::Ack(2, 258, 1), ""),
        (Do::Ack(2, 257, 1), "A1 "),
        (Do::Ack(2, 257, 1), ""),
        (Do::View(3), ""),
        (Do::Post, "a257.2 a258.2 I2 "),
        (Do::Post, "a257.3 a258.3 I3 "),
        (Do::Ack(3, 258, 3), ""),
        (Do::Reject(3), "R3 "),
        (Do::Reject(3), ""),
        (Do::Ack(3, 257, 3), ""),
        (Do::Tick, "a257.2 a258.2 "),
    ] {
        takes(rt.alloc(), &shape, &mut client, what, want)?;
    }
    assert_eq!(rt; client.state(2), AppendState::Unfinished);
    assert_eq!(rt; client.state(3), AppendState::Finished);
    assert_eq!(rt; client.state(4), AppendState::NotInvoked);
    assert_eq!(rt; client.copy()?.busy(), true);
    Ok(())
}

#[test]
fn wants_the_word_of_the_shard_too(rt: HostRuntime) -> Result<(), Fail> {
    let shape = Shape::of(Edition::One, Mode::St, 1, 0, 2, 2, 1).ok_or("a shape")?;
    let mut client = first(rt.alloc(), &shape)?;
    for (what, want) in [
        (Do::Post, "p268.1 p269.1 a257.1 I1 "),
        (Do::Ack(1, 257, 1), ""),
        (Do::Data(1, 268, 1), ""),
        (Do::Data(1, 264, 1), ""),
        (Do::Tick, "p269.1 "),
        (Do::View(2), "p268.1 p269.1 a257.1 "),
        (Do::Data(1, 269, 1), ""),
        (Do::Data(2, 269, 1), ""),
        (Do::Ack(2, 257, 1), ""),
        (Do::Data(2, 268, 1), "A1 "),
    ] {
        takes(rt.alloc(), &shape, &mut client, what, want)?;
    }
    Ok(())
}

/// Sequencing replica 257 acknowledges this append, if it is one, and so many are posted.
fn goes_on(
    alloc: Global,
    shape: &Shape,
    client: &mut AppendClient,
    acked: u32,
    posts: u32,
) -> Result<(), Fail> {
    let mut out = Outbox::new(alloc, 4_096, 1_000_000);
    if acked != 0 {
        let ack = input(alloc, shape, Do::Ack(1, 257, acked))?;
        client.step(&ack, &mut out).ok().ok_or("a step")?;
    }
    for _post in 0..posts {
        let posted = client.post(Bytes::copy(alloc, b"a")?, &mut out);
        posted.ok().ok_or("a number")?;
    }
    Ok(())
}

#[test]
fn fills_its_window_round_a_hole(rt: HostRuntime) -> Result<(), Fail> {
    let shape = Shape::of(Edition::One, Mode::M, 1, 0, 1, 1, 1).ok_or("a shape")?;
    let mut client = first(rt.alloc(), &shape)?;
    for (acked, posts, want) in [
        (0, 256, Some(PostRefused::WindowFull(1))),
        (2, 0, Some(PostRefused::WindowFull(1))),
        (1, 0, None),
        (0, 2, Some(PostRefused::WindowFull(3))),
        (5, 0, Some(PostRefused::WindowFull(3))),
    ] {
        goes_on(rt.alloc(), &shape, &mut client, acked, posts)?;
        assert_eq!(rt; client.post_refusal(1), want);
    }
    assert_eq!(rt; client.post_refusal(4_097), Some(PostRefused::TooLong));
    let lowest = "a257.3 a257.4 a257.6 a257.7 a257.8 a257.9 a257.10 a257.11 ";
    takes(rt.alloc(), &shape, &mut client, Do::Tick, lowest)?;
    let mut small = Outbox::new(rt.alloc(), 7, 1_000);
    assert_eq!(rt;
        client.step(&Input::Tick, &mut small),
        Err(StepRefused::Over)
    );
    Ok(())
}
