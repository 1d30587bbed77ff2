//! Worked rows of a shard replica, in both modes.

use lazy_msgs::{Envelope, Input, Msg, Outbox};
use plain_lists::Sequence;
use rec_id::{Body, Bytes, Cell, CellList, Item, ItemList, RecordId};
use shard_node::ShardNode;
use std::alloc::Global;
use std::test::Fail;
use view_config::{Config, Mode, Shape};

fn id(number: u32) -> Result<RecordId, Fail> {
    match RecordId::new(0, number) {
        Ok(id) => Ok(id),
        Err(_) => Err("no identity")?,
    }
}

/// An item for each number, with a byte of data where a record goes whole.
fn items(alloc: Global, mode: Mode, numbers: &[u32]) -> Result<ItemList, Fail> {
    let mut made = Sequence::new(alloc);
    for number in numbers {
        let bytes = match mode {
            Mode::M => Some(Bytes::copy(alloc, b"w")?),
            Mode::St => None,
        };
        made.push(Item {
            id: id(*number)?,
            bytes,
        })?;
    }
    Ok(made)
}

/// What happens in a row.
#[derive(Clone, Copy)]
enum Turn {
    Place(u32, u32, &'static [u32]),
    Copied(u32, u32),
    Copy(u32, u32, u32),
    Stable(u32),
    Put(u32),
    Grace,
    Fetch(u32, u32),
    Flush(u32, u32, &'static [u32]),
    FlushCopy(u32, u32, u32),
    Trim(u32),
}

fn cell(alloc: Global, number: u32) -> Result<CellList, Fail> {
    let mut made = Sequence::new(alloc);
    made.push(Cell {
        id: id(number)?,
        body: Body::Kept(Bytes::copy(alloc, b"c")?),
    })?;
    Ok(made)
}

fn config(alloc: Global, shape: &Shape, view: u32) -> Result<Config, Fail> {
    let mut made = Config::initial(alloc, shape)?;
    made.view = view;
    Ok(made)
}

fn place(alloc: Global, mode: Mode, view: u32, from: u32, numbers: &[u32]) -> Result<Msg, Fail> {
    let items = items(alloc, mode, numbers)?;
    Ok(Msg::Place { view, from, items })
}

fn copy(alloc: Global, view: u32, from: u32, number: u32) -> Result<Msg, Fail> {
    let cells = cell(alloc, number)?;
    Ok(Msg::Copy { view, from, cells })
}

fn put(alloc: Global, number: u32) -> Result<Msg, Fail> {
    let id = id(number)?;
    let bytes = Bytes::copy(alloc, b"p")?;
    Ok(Msg::Put { id, bytes })
}

fn flush(alloc: Global, shape: &Shape, view: u32, from: u32, numbers: &[u32]) -> Result<Msg, Fail> {
    let config = config(alloc, shape, view)?;
    let items = items(alloc, shape.mode, numbers)?;
    Ok(Msg::Flush {
        config,
        from,
        items,
    })
}

fn flush_copy(alloc: Global, view: u32, from: u32, number: u32) -> Result<Msg, Fail> {
    let cells = cell(alloc, number)?;
    Ok(Msg::FlushCopy { view, from, cells })
}

fn message(alloc: Global, shape: &Shape, turn: Turn) -> Result<Msg, Fail> {
    match turn {
        Turn::Place(view, from, numbers) => place(alloc, shape.mode, view, from, numbers),
        Turn::Copy(view, from, number) => copy(alloc, view, from, number),
        Turn::Put(number) => put(alloc, number),
        Turn::Flush(view, from, numbers) => flush(alloc, shape, view, from, numbers),
        Turn::FlushCopy(view, from, number) => flush_copy(alloc, view, from, number),
        Turn::Copied(view, upto) => Ok(Msg::Copied { view, upto }),
        Turn::Stable(upto) => Ok(Msg::Stable { view: 1, upto }),
        Turn::Fetch(from, to) => Ok(Msg::Fetch { read: 1, from, to }),
        Turn::Trim(floor) => Ok(Msg::Trim { read: 1, floor }),
        Turn::Grace => Ok(Msg::AskView),
    }
}

fn sender(turn: Turn) -> u32 {
    match turn {
        Turn::Place(..) | Turn::Stable(_) => 257,
        Turn::Copied(..) => 265,
        Turn::Copy(..) | Turn::FlushCopy(..) => 264,
        Turn::Flush(..) => 256,
        Turn::Put(_) | Turn::Fetch(..) | Turn::Trim(_) | Turn::Grace => 0,
    }
}

/// What the replica is fed.
fn input(alloc: Global, shape: &Shape, turn: Turn) -> Result<Input, Fail> {
    if matches!(turn, Turn::Grace) {
        return Ok(Input::Grace);
    }
    let msg = message(alloc, shape, turn)?;
    Ok(Input::Take(Envelope {
        from: sender(turn),
        to: 264,
        time: 0,
        msg,
    }))
}

/// A letter for the kind, a number that it carries, and how many members its list has.
fn sign(msg: &Msg) -> (u8, u32, usize) {
    match msg {
        Msg::Placed { upto, .. } => (b'p', *upto, 0),
        Msg::Copy { from, cells, .. } => (b'c', *from, cells.len()),
        Msg::Copied { upto, .. } => (b'd', *upto, 0),
        Msg::Claim { stable } => (b's', *stable, 0),
        Msg::DataAck { view, .. } => (b'a', *view, 0),
        Msg::Rejected { place, .. } => (b'r', *place, 0),
        Msg::Part { end, entries, .. } => (b'e', *end, entries.len()),
        Msg::FlushCopy { from, cells, .. } => (b'f', *from, cells.len()),
        Msg::Flushed { view } => (b'g', *view, 0),
        Msg::TrimAck { .. } => (b't', 0, 0),
        Msg::TrimmedAt { floor, .. } => (b'u', *floor, 0),
        _ => (b'?', 0, 0),
    }
}

/// The signs of all messages that are sent.
fn show(alloc: Global, out: &Outbox) -> Result<Vec<u8>, Fail> {
    let mut text = Vec::new(alloc);
    for i in 0..out.sends().len() {
        let (letter, number, members) = sign(&out.sends().at(i).1);
        text.push(letter)?;
        text.push(b'0' + (number % 10) as u8)?;
        text.push(b'0' + (members % 10) as u8)?;
    }
    Ok(text)
}

/// The replica takes the input, and what it sends is told.
fn sent(alloc: Global, node: &mut ShardNode, input: &Input) -> Result<Vec<u8>, Fail> {
    let mut out = Outbox::new(alloc, 16, 65_536);
    if node.step(input, &mut out).is_err() {
        return Err("refused")?;
    }
    show(alloc, &out)
}

/// Replica `copy` of the only shard.
fn replica(alloc: Global, shape: &Shape, copy: u32) -> Result<ShardNode, Fail> {
    if shape.shards == 0 {
        return Err("no shard")?;
    }
    if copy >= shape.copies {
        return Err("no replica")?;
    }
    let node = ShardNode::new(alloc, shape, 0, copy)?;
    Ok(node)
}

/// Each turn sends what stands beside it.
fn drive(alloc: Global, mode: Mode, copy: u32, turns: &[(Turn, &str)]) -> Result<(), Fail> {
    let shape = Shape::new(mode, 2, 1, 1, 2, 1).ok_or("a shape")?;
    let mut node = replica(alloc, &shape, copy)?;
    for (turn, want) in turns {
        let input = input(alloc, &shape, *turn)?;
        let text = sent(alloc, &mut node, &input)?;
        if text.as_slice() != want.as_bytes() {
            return Err("another row")?;
        }
    }
    Ok(())
}

#[test]
fn rows_where_records_go_whole(rt: HostRuntime) -> Result<(), Fail> {
    let alloc = rt.alloc();
    let primary = [
        (Turn::Place(1, 0, &[1, 2]), "c02"),
        (Turn::Place(1, 0, &[1, 2]), "c02"),
        (Turn::Place(1, 2, &[3]), "c21"),
        (Turn::Place(1, 3, &[4]), "c31"),
        (Turn::Place(1, 4, &[5]), "c41"),
        (Turn::Place(1, 5, &[6]), ""),
        (Turn::Place(2, 5, &[6]), ""),
        (Turn::Copied(1, 6), ""),
        (Turn::Copied(1, 3), "p20p30"),
        (Turn::Place(1, 0, &[1, 2]), "p20"),
        (Turn::Stable(3), "s30"),
        (Turn::Stable(3), ""),
        (Turn::Fetch(1, 9), "e32"),
        (Turn::Trim(2), "t00"),
        (Turn::Trim(4), ""),
        (Turn::Fetch(1, 9), "u20"),
        (Turn::Fetch(2, 9), "e31"),
        (Turn::Flush(2, 2, &[7]), ""),
        (Turn::Flush(2, 3, &[7]), "f31"),
        (Turn::Place(2, 4, &[8]), ""),
        (Turn::Flush(2, 3, &[7]), "f31"),
        (Turn::Copied(2, 4), "g20"),
        (Turn::Flush(2, 3, &[7]), "g20"),
        (Turn::Place(1, 4, &[8]), ""),
        (Turn::Place(2, 4, &[8]), "c41"),
    ];
    drive(alloc, Mode::M, 0, &primary)?;
    let backup = [
        (Turn::Copy(1, 0, 1), "d10"),
        (Turn::Copy(1, 0, 1), "d10"),
        (Turn::Copy(1, 2, 1), ""),
        (Turn::FlushCopy(3, 0, 9), "d10"),
        (Turn::FlushCopy(2, 0, 9), ""),
        (Turn::FlushCopy(3, 0, 9), "d10"),
        (Turn::Copy(3, 1, 2), "d20"),
        (Turn::Grace, ""),
    ];
    drive(alloc, Mode::M, 1, &backup)
}

#[test]
fn rows_where_data_comes_by_itself(rt: HostRuntime) -> Result<(), Fail> {
    let turns = [
        (Turn::Put(1), "a10"),
        (Turn::Place(1, 0, &[1, 2]), ""),
        (Turn::Place(1, 2, &[3, 4]), ""),
        (Turn::Put(2), "a10c02"),
        (Turn::Copied(1, 2), "p20"),
        (Turn::Grace, "c22"),
        (Turn::Put(3), ""),
        (Turn::Copied(1, 4), "p40"),
        (Turn::Stable(4), "s40"),
        (Turn::Put(3), "r20"),
        (Turn::Put(2), "a10"),
        (Turn::Fetch(0, 3), "e33"),
        (Turn::Flush(2, 4, &[5, 6]), ""),
        (Turn::Put(6), "a20"),
        (Turn::Put(5), "a20f42"),
        (Turn::Copied(2, 6), "g20"),
    ];
    drive(rt.alloc(), Mode::St, 0, &turns)
}
