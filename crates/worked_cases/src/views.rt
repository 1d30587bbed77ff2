//! Worked rows, as tables of inputs with what each sends.

use lazy_msgs::{Envelope, Input, Msg, Outbox, SendList, StepRefused, SuspectRefused};
use plain_lists::Sequence;
use rec_id::{Bytes, Item, ItemList, Marks, RecordId, WindowList};
use std::alloc::Global;
use std::process::Abort;
use std::test::Fail;
use view_config::{CONTROLLER, Mode, Shape};
use view_ctl::{Controller, CtlPhase};

/// What happens to the controller. A message has its sender first, and then its view.
#[derive(Clone, Copy)]
enum Act {
    Suspect(u32),
    Tick,
    AskView(u32),
    /// The sender, the view and the bound position, with records 1 and 2 of client 0 and its marks.
    Sealed(u32, u32, u32),
    /// The same with records of client 1.
    Foreign(u32, u32, u32),
    /// The same without marks.
    Bare(u32, u32, u32),
    SealedEmpty(u32, u32),
    Flushed(u32, u32),
    Started(u32, u32),
}

/// What is seen of a message that is sent.
#[derive(Clone, Copy, Debug, PartialEq)]
enum Seen {
    Nothing,
    Seal(u32),
    /// The view, where it begins, and its first two items: the record's number where its bytes are
    /// there, 0 where they aren't, 9 where there is no item.
    Flush(u32, u32, u32, u32),
    /// The view, its base, and the greatest mark of client 0.
    NewView(u32, u32, u32),
    ViewIs(u32),
    Other,
}

/// A message: to whom, and what is seen of it.
type Sent = (u32, Seen);

/// An input, and the two messages that it leads to.
type Worked = (Act, Sent, Sent);

const NONE: Sent = (0, Seen::Nothing);

fn item(alloc: Global, client: u32, number: u32) -> Result<Item, Fail> {
    Ok(Item {
        id: RecordId::new(client, number).ok().ok_or("an identity")?,
        bytes: Some(Bytes::copy(alloc, b"a")?),
    })
}

/// Numbers 1 and 2 are marked.
fn marks(alloc: Global) -> Result<Marks, Fail> {
    let mut bits = Sequence::new(alloc);
    for word in [3, 0, 0, 0] {
        bits.push(word)?;
    }
    Ok(Marks { top: 2, bits })
}

fn window(alloc: Global) -> Result<WindowList, Fail> {
    let mut window = Sequence::new(alloc);
    window.push(marks(alloc)?)?;
    Ok(window)
}

/// A Sealed with records 1 and 2 of the client.
fn sealed(
    alloc: Global,
    view: u32,
    bound: u32,
    client: u32,
    window: WindowList,
) -> Result<Msg, Fail> {
    let mut items = Sequence::new(alloc);
    items.push(item(alloc, client, 1)?)?;
    items.push(item(alloc, client, 2)?)?;
    Ok(Msg::Sealed {
        view,
        bound,
        window,
        items,
    })
}

fn taken(from: u32, msg: Msg) -> Input {
    Input::Take(Envelope {
        from,
        to: CONTROLLER,
        time: 1,
        msg,
    })
}

fn input(alloc: Global, act: Act) -> Result<Input, Fail> {
    match act {
        Act::Suspect(node) => Ok(Input::Suspect(node)),
        Act::Tick => Ok(Input::Tick),
        Act::AskView(from) => Ok(taken(from, Msg::AskView)),
        Act::Sealed(from, view, bound) => {
            let msg = sealed(alloc, view, bound, 0, window(alloc)?)?;
            Ok(taken(from, msg))
        }
        Act::Foreign(from, view, bound) => {
            let msg = sealed(alloc, view, bound, 1, window(alloc)?)?;
            Ok(taken(from, msg))
        }
        Act::Bare(from, view, bound) => {
            let msg = sealed(alloc, view, bound, 0, Sequence::new(alloc))?;
            Ok(taken(from, msg))
        }
        Act::SealedEmpty(from, view) => Ok(taken(from, Msg::SealedEmpty { view })),
        Act::Flushed(from, view) => Ok(taken(from, Msg::Flushed { view })),
        Act::Started(from, view) => Ok(taken(from, Msg::Started { view })),
    }
}

fn kept_at(items: &ItemList, i: usize) -> u32 {
    match items.as_slice().get(i) {
        Some(item) => {
            if item.bytes.is_some() {
                item.id.number()
            } else {
                0
            }
        }
        None => 9,
    }
}

fn greatest(window: &WindowList) -> u32 {
    match window.as_slice().first() {
        Some(marks) => marks.top,
        None => 9,
    }
}

fn look(msg: &Msg) -> Seen {
    match msg {
        Msg::Seal { view } => Seen::Seal(*view),
        Msg::Flush {
            config,
            from,
            items,
        } => Seen::Flush(config.view, *from, kept_at(items, 0), kept_at(items, 1)),
        Msg::NewView {
            config,
            base,
            window,
        } => Seen::NewView(config.view, *base, greatest(window)),
        Msg::ViewIs { config } => Seen::ViewIs(config.view),
        _ => Seen::Other,
    }
}

fn sent_at(sends: &SendList, i: usize) -> Sent {
    match sends.as_slice().get(i) {
        Some(send) => (send.0, look(&send.1)),
        None => NONE,
    }
}

/// A controller of this shape takes the inputs in order, and sends what stands beside each.
fn takes(
    rt: &impl Abort,
    alloc: Global,
    shape: &Shape,
    rows: &[Worked],
) -> Result<Controller, Fail> {
    let mut controller = Controller::new(alloc, shape)?;
    let mut out = Outbox::new(alloc, 9, 1_000_000);
    for (act, first, second) in rows {
        out.clear();
        let input = input(alloc, *act)?;
        assert_eq!(rt; controller.step(&input, &mut out), Ok(()));
        assert_eq!(rt; sent_at(out.sends(), 0), *first);
        assert_eq!(rt; sent_at(out.sends(), 1), *second);
        assert_eq!(rt; sent_at(out.sends(), 2), NONE);
    }
    Ok(controller)
}

/// Two sequencing replicas, 257 and 258, the spare 259, and two shards of two replicas: 264 and 265,
/// 268 and 269. Places of even number belong to the first shard.
#[test]
fn views_change(rt: HostRuntime) -> Result<(), Fail> {
    let shape = Shape::new(Mode::M, 2, 1, 2, 2, 1).ok_or("a shape")?;
    let controller = takes(
        &rt,
        rt.alloc(),
        &shape,
        &[
            (Act::AskView(0), (0, Seen::ViewIs(1)), NONE),
            (Act::Tick, NONE, NONE),
            (Act::Sealed(258, 1, 1), NONE, NONE),
            (
                Act::Suspect(257),
                (257, Seen::Seal(1)),
                (258, Seen::Seal(1)),
            ),
            (Act::AskView(0), NONE, NONE),
            (Act::Suspect(258), NONE, NONE),
            (Act::Tick, (257, Seen::Seal(1)), (258, Seen::Seal(1))),
            (Act::Sealed(258, 2, 9), NONE, NONE),
            (Act::Foreign(258, 1, 1), NONE, NONE),
            (Act::Bare(258, 1, 1), NONE, NONE),
            (
                Act::Sealed(258, 1, 1),
                (264, Seen::Flush(3, 1, 0, 2)),
                (268, Seen::Flush(3, 1, 1, 0)),
            ),
            (Act::Sealed(257, 1, 0), NONE, NONE),
            (Act::Flushed(264, 3), NONE, NONE),
            (
                Act::Suspect(264),
                (265, Seen::Flush(4, 1, 0, 2)),
                (268, Seen::Flush(4, 1, 1, 0)),
            ),
            (Act::Flushed(268, 4), NONE, NONE),
            (
                Act::Suspect(269),
                (265, Seen::Flush(5, 1, 0, 2)),
                (268, Seen::Flush(5, 1, 1, 0)),
            ),
            (Act::Flushed(265, 4), NONE, NONE),
            (Act::Flushed(264, 5), NONE, NONE),
            (Act::Flushed(268, 5), NONE, NONE),
            (Act::Flushed(268, 5), NONE, NONE),
            (Act::Tick, (265, Seen::Flush(5, 1, 0, 2)), NONE),
            (Act::Suspect(259), NONE, NONE),
            (Act::Flushed(265, 5), (259, Seen::NewView(5, 3, 2)), NONE),
            (Act::AskView(0), (0, Seen::ViewIs(5)), NONE),
            (Act::Started(259, 4), NONE, NONE),
            (Act::Tick, (259, Seen::NewView(5, 3, 2)), NONE),
            (Act::Started(259, 5), NONE, NONE),
            (Act::Tick, NONE, NONE),
            (Act::Suspect(265), NONE, NONE),
            (Act::Suspect(0), NONE, NONE),
        ],
    )?;
    assert_eq!(rt;
        (controller.base(), controller.phase()),
        (3, CtlPhase::Running)
    );
    Ok(())
}

/// Two sequencing replicas, 257 and 258, the spares 259 and 260, and one shard of one replica.
#[test]
fn spares_are_used_up(rt: HostRuntime) -> Result<(), Fail> {
    let shape = Shape::new(Mode::M, 2, 2, 1, 1, 1).ok_or("a shape")?;
    let controller = takes(
        &rt,
        rt.alloc(),
        &shape,
        &[
            (
                Act::Suspect(257),
                (257, Seen::Seal(1)),
                (258, Seen::Seal(1)),
            ),
            (Act::Sealed(258, 1, 1), (264, Seen::Flush(2, 1, 1, 2)), NONE),
            (
                Act::Flushed(264, 2),
                (258, Seen::NewView(2, 3, 2)),
                (259, Seen::NewView(2, 3, 2)),
            ),
            (Act::Started(259, 2), NONE, NONE),
            (Act::Tick, (258, Seen::NewView(2, 3, 2)), NONE),
            (
                Act::Suspect(258),
                (258, Seen::Seal(2)),
                (259, Seen::Seal(2)),
            ),
            (Act::SealedEmpty(258, 1), NONE, NONE),
            (
                Act::SealedEmpty(258, 2),
                (264, Seen::Flush(3, 3, 9, 9)),
                NONE,
            ),
            (
                Act::Flushed(264, 3),
                (259, Seen::NewView(3, 3, 2)),
                (260, Seen::NewView(3, 3, 2)),
            ),
            (
                Act::Suspect(259),
                (259, Seen::Seal(3)),
                (260, Seen::Seal(3)),
            ),
            (
                Act::SealedEmpty(260, 3),
                (264, Seen::Flush(4, 3, 9, 9)),
                NONE,
            ),
            (Act::Flushed(264, 4), (260, Seen::NewView(4, 3, 2)), NONE),
        ],
    )?;
    assert_eq!(rt; controller.newest().seq.as_slice(), [260].as_slice());
    Ok(())
}

/// One sequencing replica, 257, the spare 258, and two shards of one replica: 264 and 268.
#[test]
fn suspicions_are_refused_in_order(rt: HostRuntime) -> Result<(), Fail> {
    let shape = Shape::new(Mode::M, 1, 1, 2, 1, 1).ok_or("a shape")?;
    let mut controller = Controller::new(rt.alloc(), &shape)?;
    let mut narrow = Outbox::new(rt.alloc(), 0, 1_000_000);
    for (node, want) in [
        (258, SuspectRefused::NotInView),
        (268, SuspectRefused::LastOfShard(1)),
        (257, SuspectRefused::Over),
    ] {
        assert_eq!(rt; controller.suspect(node, &mut narrow), Err(want));
    }
    let step = controller.step(&Input::Suspect(257), &mut narrow);
    assert_eq!(rt; step, Err(StepRefused::Over));
    let mut out = Outbox::new(rt.alloc(), 9, 1_000_000);
    for (node, want) in [
        (257, Ok(())),
        (257, Err(SuspectRefused::NotInView)),
        (258, Err(SuspectRefused::LastSeq)),
    ] {
        assert_eq!(rt; controller.suspect(node, &mut out), want);
    }
    assert_eq!(rt; controller.started().map(|config| config.view), Some(1));
    assert!(rt; controller.taken().is_none());
    Ok(())
}
