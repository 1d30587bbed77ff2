//! Worked rows of a sequencing replica: what comes, and what is sent then.

use lazy_msgs::{Envelope, Input, Msg, Outbox};
use plain_lists::Sequence;
use rec_id::{IdList, RecordId, WindowList};
use seen_window::SeenWindow;
use seq_node::SeqNode;
use std::alloc::Global;
use std::test::Fail;
use view_config::{Config, Mode, Shape};

/// What comes. Each identity is client 0's.
#[derive(Clone, Copy)]
enum Turn {
    /// Appends in a view, of the numbers from the second up to the third.
    Appends(u32, u32, u32),
    Append(u32, u32),
    Tick,
    /// From whom, in which view, and up to where; likewise of Ordered.
    Placed(u32, u32, u32),
    Ordered(u32, u32, u32),
    /// In which view, from where, and a number.
    Order(u32, u32, u32),
    /// From whom, in which view, and the read.
    Probe(u32, u32, u32),
    Seal(u32),
    /// The view and its base.
    NewView(u32, u32),
    /// The same with a window of no client.
    NoWindow(u32, u32),
}

/// A sent message: to whom, a letter for its kind, its position or number, and how many members it has.
type Sent = (u32, u8, u32, usize);

/// What comes, and what is sent.
type TableRow = (Turn, &'static [Sent]);

/// A leader with 300 items, whose batches begin because a read waits.
const LEADS: &[TableRow] = &[
    (Turn::Appends(1, 1, 301), &[]),
    (Turn::Append(1, 300), &[(0, b'A', 300, 0)]),
    (Turn::Append(2, 301), &[]),
    (Turn::Append(0, 301), &[]),
    (Turn::Tick, &[(264, b'P', 0, 64)]),
    (
        Turn::Probe(1, 1, 1),
        &[
            (1, b'k', 1, 0),
            (264, b'P', 64, 64),
            (264, b'P', 128, 64),
            (264, b'P', 192, 64),
        ],
    ),
    (Turn::Probe(1, 1, 1), &[(1, b'k', 1, 0)]),
    (Turn::Probe(1, 1, 2), &[(1, b'k', 2, 0)]),
    (Turn::Probe(264, 1, 3), &[]),
    (Turn::Placed(264, 1, 128), &[]),
    (Turn::Placed(265, 1, 64), &[]),
    (Turn::Placed(264, 1, 63), &[]),
    (
        Turn::Placed(264, 1, 64),
        &[(258, b'O', 0, 64), (258, b'O', 64, 64)],
    ),
    (
        Turn::Tick,
        &[
            (258, b'O', 0, 64),
            (258, b'O', 64, 64),
            (264, b'P', 128, 64),
            (264, b'P', 192, 64),
        ],
    ),
    (Turn::Ordered(258, 1, 128), &[]),
    (Turn::Ordered(259, 1, 64), &[]),
    (
        Turn::Ordered(258, 1, 64),
        &[
            (264, b'S', 64, 0),
            (264, b'S', 128, 0),
            (264, b'P', 256, 44),
        ],
    ),
    (Turn::Placed(264, 1, 300), &[]),
    (Turn::Placed(264, 1, 256), &[]),
    (
        Turn::Placed(264, 1, 192),
        &[
            (258, b'O', 128, 64),
            (258, b'O', 192, 64),
            (258, b'O', 256, 44),
        ],
    ),
    (Turn::Ordered(258, 1, 192), &[(264, b'S', 192, 0)]),
    (Turn::Ordered(258, 1, 300), &[]),
    (
        Turn::Ordered(258, 1, 256),
        &[(264, b'S', 256, 0), (264, b'S', 300, 0), (1, b'T', 300, 0)],
    ),
    (
        Turn::Probe(1, 1, 3),
        &[(1, b'k', 3, 0), (264, b'S', 300, 0), (1, b'T', 300, 0)],
    ),
    (Turn::Tick, &[]),
    (Turn::Seal(1), &[(256, b'D', 300, 0)]),
    (Turn::Append(1, 301), &[]),
    (
        Turn::NewView(2, 61_439),
        &[(256, b'N', 2, 0), (264, b'S', 61_439, 0)],
    ),
    (Turn::Append(2, 1), &[(0, b'A', 1, 0)]),
    (Turn::Append(2, 2), &[]),
];

/// A leader without followers, whose log is full, and whose batches leave once they are placed.
const LEADS_ALONE: &[TableRow] = &[
    (Turn::Appends(1, 1, 4_096), &[]),
    (Turn::Append(1, 4_096), &[(0, b'A', 4_096, 0)]),
    (Turn::Append(1, 4_097), &[]),
    (Turn::Append(1, 4_096), &[(0, b'A', 4_096, 0)]),
    (Turn::Tick, &[(264, b'P', 0, 64), (268, b'P', 0, 64)]),
    (Turn::Placed(264, 1, 64), &[]),
    (
        Turn::Tick,
        &[(268, b'P', 0, 64), (264, b'P', 64, 64), (268, b'P', 64, 64)],
    ),
    (Turn::Placed(264, 1, 128), &[]),
    (Turn::Placed(268, 1, 128), &[]),
    (
        Turn::Placed(268, 1, 64),
        &[
            (264, b'S', 64, 0),
            (268, b'S', 64, 0),
            (264, b'S', 128, 0),
            (268, b'S', 128, 0),
        ],
    ),
    (Turn::Append(1, 4_097), &[(0, b'A', 4_097, 0)]),
];

/// A follower, which is sealed, barred and started again.
const FOLLOWS: &[TableRow] = &[
    (Turn::Appends(1, 1, 3), &[]),
    (Turn::Order(1, 0, 1), &[(257, b'o', 1, 0)]),
    (Turn::Order(1, 0, 1), &[(257, b'o', 1, 0)]),
    (Turn::Order(1, 2, 2), &[]),
    (Turn::Order(1, 1, 9), &[(257, b'o', 2, 0)]),
    (Turn::Append(1, 9), &[(0, b'A', 9, 0)]),
    (Turn::Probe(1, 1, 4), &[(1, b'k', 4, 0)]),
    (Turn::Tick, &[]),
    (Turn::Placed(264, 1, 1), &[]),
    (Turn::NewView(1, 7), &[(256, b'N', 1, 0)]),
    (Turn::Seal(1), &[(256, b'D', 2, 1)]),
    (Turn::Seal(0), &[]),
    (Turn::Seal(3), &[(256, b'E', 3, 0)]),
    (Turn::Order(1, 2, 2), &[]),
    (Turn::NewView(3, 7), &[]),
    (Turn::NoWindow(4, 7), &[]),
    (Turn::NewView(4, 7), &[(256, b'N', 4, 0)]),
    (Turn::NewView(4, 8), &[(256, b'N', 4, 0)]),
    (Turn::Append(4, 1), &[(0, b'A', 1, 0)]),
];

/// A spare, which is in no view.
const SPARE: &[TableRow] = &[
    (Turn::Append(0, 1), &[]),
    (Turn::Append(1, 1), &[]),
    (Turn::Probe(1, 0, 1), &[]),
    (Turn::Order(0, 0, 1), &[]),
    (Turn::NewView(0, 0), &[(256, b'N', 0, 0)]),
    (Turn::NewView(1, 0), &[]),
    (Turn::Seal(0), &[(256, b'D', 0, 0)]),
    (Turn::Seal(1), &[(256, b'E', 1, 0)]),
];

fn id(number: u32) -> Result<RecordId, Fail> {
    match RecordId::new(0, number) {
        Ok(id) => Ok(id),
        Err(_) => Err("no identity")?,
    }
}

fn append(view: u32, number: u32) -> Result<Msg, Fail> {
    let id = id(number)?;
    Ok(Msg::Append {
        view,
        id,
        bytes: None,
    })
}

fn one_id(alloc: Global, number: u32) -> Result<IdList, Fail> {
    let mut ids = Sequence::new(alloc);
    ids.push(id(number)?)?;
    Ok(ids)
}

fn order(alloc: Global, view: u32, from: u32, number: u32) -> Result<Msg, Fail> {
    let ids = one_id(alloc, number)?;
    Ok(Msg::Order { view, from, ids })
}

fn no_marks(alloc: Global, shape: &Shape) -> Result<WindowList, Fail> {
    let window = SeenWindow::new(alloc, shape.clients, shape.edition.window())?;
    Ok(window.image()?)
}

/// The first replicas of the shape in this view.
fn new_view(
    alloc: Global,
    shape: &Shape,
    view: u32,
    base: u32,
    window: WindowList,
) -> Result<Msg, Fail> {
    let mut config = Config::initial(alloc, shape)?;
    config.view = view;
    Ok(Msg::NewView {
        config,
        base,
        window,
    })
}

fn message(alloc: Global, shape: &Shape, turn: Turn) -> Result<Msg, Fail> {
    match turn {
        Turn::Append(view, number) => append(view, number),
        Turn::Order(view, from, number) => order(alloc, view, from, number),
        Turn::NewView(view, base) => new_view(alloc, shape, view, base, no_marks(alloc, shape)?),
        Turn::NoWindow(view, base) => new_view(alloc, shape, view, base, Sequence::new(alloc)),
        Turn::Placed(_, view, upto) => Ok(Msg::Placed { view, upto }),
        Turn::Ordered(_, view, upto) => Ok(Msg::Ordered { view, upto }),
        Turn::Probe(_, view, read) => Ok(Msg::Probe { view, read }),
        Turn::Seal(view) => Ok(Msg::Seal { view }),
        Turn::Appends(..) | Turn::Tick => Ok(Msg::AskView),
    }
}

fn sender(turn: Turn) -> u32 {
    match turn {
        Turn::Placed(from, ..) | Turn::Ordered(from, ..) | Turn::Probe(from, ..) => from,
        Turn::Order(..) => 257,
        Turn::Seal(_) | Turn::NewView(..) | Turn::NoWindow(..) => 256,
        Turn::Appends(..) | Turn::Append(..) | Turn::Tick => 0,
    }
}

fn input(alloc: Global, shape: &Shape, turn: Turn) -> Result<Input, Fail> {
    if matches!(turn, Turn::Tick) {
        return Ok(Input::Tick);
    }
    let msg = message(alloc, shape, turn)?;
    Ok(Input::Take(Envelope {
        from: sender(turn),
        to: 257,
        time: 0,
        msg,
    }))
}

/// A letter for the kind, a number that it carries, and how many members its list has.
fn sign(msg: &Msg) -> (u8, u32, usize) {
    match msg {
        Msg::AppendAck { id, .. } => (b'A', id.number(), 0),
        Msg::Place { from, items, .. } => (b'P', *from, items.len()),
        Msg::Order { from, ids, .. } => (b'O', *from, ids.len()),
        Msg::Ordered { upto, .. } => (b'o', *upto, 0),
        Msg::Stable { upto, .. } => (b'S', *upto, 0),
        Msg::ProbeAck { read, .. } => (b'k', *read, 0),
        Msg::TailReady { tail, .. } => (b'T', *tail, 0),
        Msg::Sealed { bound, items, .. } => (b'D', *bound, items.len()),
        Msg::SealedEmpty { view } => (b'E', *view, 0),
        Msg::Started { view } => (b'N', *view, 0),
        _ => (b'?', 0, 0),
    }
}

fn is_sent(to: u32, msg: &Msg, want: Sent) -> bool {
    let (letter, number, members) = sign(msg);
    (to, letter, number, members) == want
}

/// Just these are sent.
fn are_sent(out: &Outbox, want: &[Sent]) -> bool {
    if out.sends().len() != want.len() {
        return false;
    }
    for i in 0..want.len() {
        let (to, msg) = out.sends().at(i);
        if !is_sent(*to, msg, want[i]) {
            return false;
        }
    }
    true
}

/// The replica takes the input, and sends just these.
fn takes(alloc: Global, node: &mut SeqNode, input: &Input, want: &[Sent]) -> Result<bool, Fail> {
    let mut out = Outbox::new(alloc, 100, 1_000_000);
    if node.step(input, &mut out).is_err() {
        return Err("refused")?;
    }
    Ok(are_sent(&out, want))
}

fn takes_turn(
    alloc: Global,
    shape: &Shape,
    node: &mut SeqNode,
    turn: Turn,
    want: &[Sent],
) -> Result<bool, Fail> {
    let input = input(alloc, shape, turn)?;
    takes(alloc, node, &input, want)
}

/// The replica takes these appends, and acknowledges each.
fn fill(
    alloc: Global,
    shape: &Shape,
    node: &mut SeqNode,
    view: u32,
    low: u32,
    high: u32,
) -> Result<bool, Fail> {
    for number in low..high {
        let turn = Turn::Append(view, number);
        if !takes_turn(alloc, shape, node, turn, &[(0, b'A', number, 0)])? {
            return Ok(false);
        }
    }
    Ok(true)
}

fn takes_row(
    alloc: Global,
    shape: &Shape,
    node: &mut SeqNode,
    row: &TableRow,
) -> Result<bool, Fail> {
    match row.0 {
        Turn::Appends(view, low, high) => fill(alloc, shape, node, view, low, high),
        turn => takes_turn(alloc, shape, node, turn, row.1),
    }
}

/// Replica `index` takes all rows, and ends with so much bound and pending, in this view.
fn drive(
    alloc: Global,
    shape: &Shape,
    index: u32,
    rows: &[TableRow],
    end: (u32, usize, u32),
) -> Result<(), Fail> {
    if index >= shape.seq + shape.spares {
        return Err("no replica")?;
    }
    let mut node = SeqNode::new(alloc, shape, index)?;
    for row in rows {
        if !takes_row(alloc, shape, &mut node, row)? {
            return Err("another row")?;
        }
    }
    if (node.bound(), node.pending().len(), node.started_view()) != end {
        return Err("another end")?;
    }
    Ok(())
}

#[test]
fn leads(rt: HostRuntime) -> Result<(), Fail> {
    let shape = Shape::new(Mode::M, 2, 1, 1, 1, 2).ok_or("a shape")?;
    drive(rt.alloc(), &shape, 0, LEADS, (61_439, 1, 2))
}

#[test]
fn leads_alone(rt: HostRuntime) -> Result<(), Fail> {
    let shape = Shape::new(Mode::St, 1, 0, 2, 1, 2).ok_or("a shape")?;
    drive(rt.alloc(), &shape, 0, LEADS_ALONE, (128, 3_969, 1))
}

#[test]
fn follows(rt: HostRuntime) -> Result<(), Fail> {
    let shape = Shape::new(Mode::M, 2, 1, 1, 1, 2).ok_or("a shape")?;
    drive(rt.alloc(), &shape, 1, FOLLOWS, (7, 1, 4))
}

#[test]
fn is_spare(rt: HostRuntime) -> Result<(), Fail> {
    let shape = Shape::new(Mode::M, 2, 1, 1, 1, 2).ok_or("a shape")?;
    drive(rt.alloc(), &shape, 2, SPARE, (0, 0, 0))
}
