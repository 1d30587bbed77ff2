//! Worked rows, as a table of inputs with what each sends and tells.

use crate::LogReader;
use lazy_msgs::{BeginRefused, Envelope, Input, Msg, Outbox, StepRefused, TrimRefused};
use plain_lists::Sequence;
use rec_id::{Ask, Entry, Event, Line, PlacedList, RecordId};
use std::alloc::{AllocError, Global};
use std::process::Abort;
use std::test::Fail;
use view_config::{Config, Edition, Mode, Shape};

/// An input, with the read or trim that it names.
#[derive(Clone, Copy)]
enum Do {
    Range(u32, u32),
    Tail(u32),
    Trim(u32),
    /// A sequencing replica acknowledges a probe: the read, the view and the replica.
    Ack(u32, u32, u32),
    /// The same, and the tail that it tells.
    Ready(u32, u32, u32, u32),
    /// A part: the read, the shard replica, where it begins and ends, and the places that it has.
    Part(u32, u32, u32, u32, [u32; 3]),
    /// What the read wants was given up: the read and the floor.
    Gone(u32, u32),
    /// A shard replica acknowledges a trim: the trim and the replica.
    Done(u32, u32),
    View(u32),
    /// A view in which each shard has its first replica alone.
    Less(u32),
    Tick,
}

/// No place.
const NO: u32 = 99;

fn taken(from: u32, msg: Msg) -> Input {
    Input::Take(Envelope {
        from,
        to: 0,
        time: 1,
        msg,
    })
}

/// No-ops at these places, the record at place p having the number p + 1.
fn placed(alloc: Global, places: &[u32]) -> Result<PlacedList, Fail> {
    let mut list = Sequence::new(alloc);
    for place in places {
        if *place < NO {
            let id = RecordId::new(0, *place + 1).ok().ok_or("an identity")?;
            list.push((*place, Entry::Noop(id)))?;
        }
    }
    Ok(list)
}

/// The configuration of this view, with all replicas of each shard or the first alone.
fn config(alloc: Global, shape: &Shape, view: u32, all: bool) -> Result<Config, AllocError> {
    let mut config = Config::initial(alloc, shape)?;
    config.view = view;
    if !all {
        let mut shards = Sequence::new(alloc);
        for nodes in config.shards.as_slice() {
            let mut first = nodes.copy()?;
            first.truncate(1);
            shards.push(first)?;
        }
        config.shards = shards;
    }
    Ok(config)
}

fn part(
    alloc: Global,
    read: u32,
    of: u32,
    from: u32,
    end: u32,
    places: [u32; 3],
) -> Result<Input, Fail> {
    let entries = placed(alloc, &places[..])?;
    Ok(taken(
        of,
        Msg::Part {
            read,
            from,
            end,
            entries,
        },
    ))
}

fn view_is(alloc: Global, shape: &Shape, view: u32, all: bool) -> Result<Input, Fail> {
    let config = config(alloc, shape, view, all)?;
    Ok(taken(256, Msg::ViewIs { config }))
}

fn input(alloc: Global, shape: &Shape, what: Do) -> Result<Input, Fail> {
    match what {
        Do::Range(from, to) => Ok(Input::Ask(Ask::Range { from, to })),
        Do::Tail(from) => Ok(Input::Ask(Ask::Tail { from })),
        Do::Trim(floor) => Ok(Input::Trim(floor)),
        Do::Ack(read, view, of) => Ok(taken(of, Msg::ProbeAck { view, read })),
        Do::Ready(read, view, of, tail) => Ok(taken(of, Msg::TailReady { view, read, tail })),
        Do::Part(read, of, from, end, places) => part(alloc, read, of, from, end, places),
        Do::Gone(read, floor) => Ok(taken(264, Msg::TrimmedAt { read, floor })),
        Do::Done(read, of) => Ok(taken(of, Msg::TrimAck { read })),
        Do::View(view) => view_is(alloc, shape, view, true),
        Do::Less(view) => view_is(alloc, shape, view, false),
        Do::Tick => Ok(Input::Tick),
    }
}

/// Of a message the letter of its kind, and its view, its end or its floor.
fn sent(msg: &Msg) -> (char, u32) {
    match msg {
        Msg::Probe { view, .. } => ('p', *view),
        Msg::Fetch { to, .. } => ('f', *to),
        Msg::Trim { floor, .. } => ('t', *floor),
        _ => ('?', 0),
    }
}

/// The numbers of the entries, one after another in tens.
fn digits(entries: &Line) -> u32 {
    let mut digits = 0u32;
    for entry in entries.as_slice() {
        let number = match entry {
            Entry::Kept(id, _) | Entry::Noop(id) | Entry::Gone(id) => id.number(),
        };
        digits = digits.wrapping_mul(10).wrapping_add(number);
    }
    digits
}

/// Of an event the letter of its kind, its number, what is told of it, and the tail.
fn told(event: &Event) -> (char, u32, u32, u32) {
    match event {
        Event::Begin(_, read, _) => ('b', *read, 0, 0),
        Event::Answer {
            read,
            entries,
            tail,
            ..
        } => ('a', *read, digits(entries), tail.unwrap_or(0)),
        Event::TrimAsk { read, floor, .. } => ('k', *read, *floor, 0),
        Event::TrimDone { read, floor, .. } => ('d', *read, *floor, 0),
        Event::Trimmed { read, floor, .. } => ('x', *read, *floor, 0),
        _ => ('?', 0, 0, 0),
    }
}

fn send_text(alloc: Global, to: u32, msg: &Msg) -> Result<String, AllocError> {
    let (letter, number) = sent(msg);
    format!(in alloc; "{to}{letter}{number} ")
}

fn event_text(alloc: Global, event: &Event) -> Result<String, AllocError> {
    let (letter, read, number, tail) = told(event);
    format!(in alloc; "{letter}{read}:{number},{tail} ")
}

/// What a step sends, and then what it tells.
fn text(alloc: Global, out: &Outbox) -> Result<String, AllocError> {
    let mut text = String::new(alloc);
    for send in out.sends().as_slice() {
        text.push_str(send_text(alloc, send.0, &send.1)?.as_str())?;
    }
    for event in out.events().as_slice() {
        text.push_str(event_text(alloc, event)?.as_str())?;
    }
    Ok(text)
}

/// A client of two sequencing replicas and two shards of two.
fn first(alloc: Global) -> Result<(Shape, LogReader), Fail> {
    let shape = Shape::of(Edition::Two, Mode::M, 2, 0, 2, 2, 1).ok_or("a shape")?;
    if shape.clients < 1 {
        return Err("no client")?;
    }
    let reader = LogReader::new(alloc, &shape, 0)?;
    Ok((shape, reader))
}

/// What becomes of a step: 0 where it is taken.
fn steps(reader: &mut LogReader, input: &Input, out: &mut Outbox) -> u32 {
    match reader.step(input, out) {
        Ok(()) => 0,
        Err(StepRefused::Over) => 400,
        Err(StepRefused::Memory) => 500,
    }
}

/// A step that is taken, and what it sends and tells.
fn step_text(
    alloc: Global,
    reader: &mut LogReader,
    input: &Input,
    out: &mut Outbox,
) -> Result<String, Fail> {
    out.clear();
    if steps(reader, input, out) != 0 {
        return Err("a step was refused")?;
    }
    Ok(text(alloc, out)?)
}

/// The client takes an input, and sends and tells what stands beside it.
fn take_row(
    rt: &impl Abort,
    alloc: Global,
    shape: &Shape,
    reader: &mut LogReader,
    out: &mut Outbox,
    row: &(Do, &str),
) -> Result<(), Fail> {
    let input = input(alloc, shape, row.0)?;
    let text = step_text(alloc, reader, &input, out)?;
    assert_eq!(rt; text.as_str(), row.1);
    Ok(())
}

/// A client takes the inputs in order.
fn takes(rt: &impl Abort, alloc: Global, rows: &[(Do, &str)]) -> Result<LogReader, Fail> {
    let (shape, mut reader) = first(alloc)?;
    let mut out = Outbox::new(alloc, 4_096, 1_000_000);
    for row in rows {
        take_row(rt, alloc, &shape, &mut reader, &mut out, row)?;
    }
    Ok(reader)
}

const READS: [(Do, &str); 29] = [
    // Parts come out of order and twice, and of another read.
    (Do::Range(1, 5), "264f5 268f5 b1:0,0 "),
    (Do::Part(1, 269, 1, 5, [3, 1, NO]), ""),
    (Do::Part(1, 268, 1, 5, [NO, NO, NO]), ""),
    (Do::View(2), "264f5 "),
    (Do::Tick, "265f5 "),
    (Do::Tick, "264f5 "),
    (Do::Part(2, 264, 1, 5, [2, 4, NO]), ""),
    (Do::Part(1, 264, 1, 6, [7, 2, 4]), "a1:2345,0 "),
    (Do::Tick, ""),
    // A part that is short of its end makes the reader probe, and a change of view does so again.
    (Do::Range(2, 4), "264f4 268f4 b2:0,0 "),
    (Do::Part(2, 264, 2, 3, [NO, NO, NO]), "257p2 258p2 "),
    (Do::Ack(2, 2, 257), ""),
    (Do::Tick, "257p2 258p2 "),
    (Do::Ready(2, 2, 258, 9), ""),
    (Do::Ready(2, 2, 257, 3), ""),
    (Do::View(3), "257p3 258p3 "),
    (Do::Ready(2, 3, 257, 3), ""),
    (Do::Ack(2, 3, 257), ""),
    (Do::Ack(2, 2, 258), ""),
    (Do::Ack(2, 3, 258), "264f3 268f3 "),
    (Do::Part(2, 264, 2, 2, [NO, NO, NO]), ""),
    (Do::Tick, "265f3 269f3 257p3 "),
    (Do::Part(2, 268, 2, 3, [NO, NO, NO]), ""),
    (Do::Part(2, 265, 2, 3, [2, NO, NO]), "a2:3,3 "),
    // A log that ends where the read begins, and a read of no places.
    (Do::Tail(3), "257p3 258p3 b3:0,0 "),
    (Do::Ack(3, 3, 257), ""),
    (Do::Ack(3, 3, 258), ""),
    (Do::Ready(3, 3, 257, 3), "a3:0,3 "),
    (Do::Range(6, 6), "b4:0,0 a4:0,0 "),
];

#[test]
fn reads_over_changes_of_view(rt: HostRuntime) -> Result<(), Fail> {
    let reader = takes(&rt, rt.alloc(), &READS[..])?;
    assert_eq!(rt; reader.copy()?.busy(), false);
    Ok(())
}

const TRIMS: [(Do, &str); 18] = [
    // What is read was given up.
    (Do::Range(1, 2), "264f2 268f2 b1:0,0 "),
    (Do::Gone(1, 1), ""),
    (Do::Gone(1, 2), "x1:2,0 "),
    // A trim goes over two changes of view, and another ends with one.
    (Do::Trim(1), ""),
    (Do::Trim(0), "264t0 265t0 268t0 269t0 k2:0,0 "),
    (Do::Done(2, 264), ""),
    (Do::View(4), "265t0 268t0 269t0 "),
    (Do::Done(2, 265), ""),
    (Do::Done(2, 268), ""),
    (Do::Tick, "269t0 "),
    (Do::View(5), "269t0 "),
    (Do::Done(2, 269), "d2:0,0 "),
    (Do::Trim(0), "264t0 265t0 268t0 269t0 k3:0,0 "),
    (Do::Done(3, 264), ""),
    (Do::Done(3, 268), ""),
    (Do::Less(6), "d3:0,0 "),
    // A change of view while nothing is at work.
    (Do::View(7), ""),
    (Do::Tail(0), "257p7 258p7 b4:0,0 "),
];

#[test]
fn trims_over_changes_of_view(rt: HostRuntime) -> Result<(), Fail> {
    takes(&rt, rt.alloc(), &TRIMS[..])?;
    Ok(())
}

/// The outcome of a read that begins, where the reader has a number for it.
fn begins(reader: &mut LogReader, ask: Ask, out: &mut Outbox) -> Result<u32, Fail> {
    if reader.count == u32::MAX {
        return Err("no number")?;
    }
    match reader.begin(ask, out) {
        Ok(number) => Ok(number),
        Err(BeginRefused::Outstanding(number)) => Ok(100 + number % 100),
        Err(BeginRefused::Backward) => Ok(200),
        Err(BeginRefused::Wide) => Ok(300),
        Err(BeginRefused::Over) => Ok(400),
        Err(BeginRefused::Memory) => Err("no memory")?,
    }
}

/// The same of a trim.
fn trims(reader: &mut LogReader, floor: u32, out: &mut Outbox) -> Result<u32, Fail> {
    if reader.count == u32::MAX {
        return Err("no number")?;
    }
    let Edition::Two = reader.shape.edition else {
        return Err("no trim")?;
    };
    match reader.trim(floor, out) {
        Ok(number) => Ok(number),
        Err(TrimRefused::Outstanding(number)) => Ok(100 + number % 100),
        Err(TrimRefused::Ahead(reach)) => Ok(200 + reach % 100),
        Err(TrimRefused::Over) => Ok(400),
        Err(TrimRefused::Memory) => Err("no memory")?,
    }
}

/// What becomes of a read, a trim or a tick.
fn outcome(reader: &mut LogReader, what: Do, out: &mut Outbox) -> Result<u32, Fail> {
    match what {
        Do::Range(from, to) => begins(reader, Ask::Range { from, to }, out),
        Do::Tail(from) => begins(reader, Ask::Tail { from }, out),
        Do::Trim(floor) => trims(reader, floor, out),
        _ => Ok(steps(reader, &Input::Tick, out)),
    }
}

/// The room for messages, what is done, what becomes of it, and whether the client is at work then.
const REFUSED: [(u32, Do, u32, bool); 9] = [
    (1, Do::Range(4, 3), 200, false),
    (1, Do::Range(1, 258), 300, false),
    (1, Do::Range(1, 257), 400, false),
    (8, Do::Trim(1), 200, false),
    (1, Do::Trim(0), 400, false),
    (8, Do::Tail(7), 1, true),
    (8, Do::Range(4, 3), 101, true),
    (8, Do::Trim(9), 101, true),
    (1, Do::Tick, 400, true),
];

#[test]
fn refuses_in_order(rt: HostRuntime) -> Result<(), Fail> {
    let (_, mut reader) = first(rt.alloc())?;
    for (room, what, want, busy) in &REFUSED {
        let mut out = Outbox::new(rt.alloc(), *room, 1_000);
        assert_eq!(rt; outcome(&mut reader, *what, &mut out)?, *want);
        assert_eq!(rt; reader.busy(), *busy);
    }
    Ok(())
}
