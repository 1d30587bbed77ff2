//! Frames worked out by hand from the form, one of each kind in each edition.

mod decoding;

use lazy_msgs::{Envelope, Msg};
use rec_id::{
    Body, Bytes, Cell, CellList, Entry, IdList, Item, ItemList, Marks, PlacedList, RecordId,
    WindowList, Words,
};
use std::alloc::{AllocError, Global};
use std::process::Abort;
use std::test::Fail;
use view_config::{Config, Edition, NodeList, ShardList};
use wire_frames::{FrameError, decode, encode, fits, read_again};

/// Of each kind the fields in edition One and in edition Two, as far as the marks of its window,
/// then how many bytes of the marks follow that are 0, in both, and what stands behind them.
const FIELDS: [(u8, &[u8], &[u8], (usize, usize), &[u8]); 31] = [
    (
        1,
        b"\x0a\x0b\x0c\x0d\x07\x00\x00\x01\x09\x01\x00\x02\x61\x62",
        b"\x0a\x0b\x0c\x0d\x07\x00\x00\x01\x09\x01\x00\x00\x00\x02\x61\x62",
        (0, 0),
        b"",
    ),
    (
        2,
        b"\x0a\x0b\x0c\x0d\x07\x00\x00\x01\x09",
        b"\x0a\x0b\x0c\x0d\x07\x00\x00\x01\x09",
        (0, 0),
        b"",
    ),
    (
        3,
        b"\x07\x00\x00\x01\x09\x00\x02\x61\x62",
        b"\x07\x00\x00\x01\x09\x00\x00\x00\x02\x61\x62",
        (0, 0),
        b"",
    ),
    (
        4,
        b"\x0a\x0b\x0c\x0d\x07\x00\x00\x01\x09",
        b"\x0a\x0b\x0c\x0d\x07\x00\x00\x01\x09",
        (0, 0),
        b"",
    ),
    (
        5,
        b"\x07\x00\x00\x01\x09\x11\x22\x33\x44",
        b"\x07\x00\x00\x01\x09\x11\x22\x33\x44",
        (0, 0),
        b"",
    ),
    (
        6,
        b"\x0a\x0b\x0c\x0d\x00\x00\x00\x05\x00\x02\x07\x00\x00\x01\x09\x00\x00\x00\x00\x00\x01\x01\x00\x01\x63",
        b"\x0a\x0b\x0c\x0d\x00\x00\x00\x05\x00\x02\x07\x00\x00\x01\x09\x00\x00\x00\x00\x00\x01\x01\x00\x00\x00\x01\x63",
        (0, 0),
        b"",
    ),
    (
        7,
        b"\x0a\x0b\x0c\x0d\x11\x22\x33\x44",
        b"\x0a\x0b\x0c\x0d\x11\x22\x33\x44",
        (0, 0),
        b"",
    ),
    (
        8,
        b"\x0a\x0b\x0c\x0d\x00\x00\x00\x05\x00\x03\x07\x00\x00\x01\x09\x00\x00\x00\x00\x00\x01\x01\x00\x01\x63\x07\x00\x00\x01\x09\x02",
        b"\x0a\x0b\x0c\x0d\x00\x00\x00\x05\x00\x03\x07\x00\x00\x01\x09\x00\x00\x00\x00\x00\x01\x01\x00\x00\x00\x01\x63\x07\x00\x00\x01\x09\x02",
        (0, 0),
        b"",
    ),
    (
        9,
        b"\x0a\x0b\x0c\x0d\x11\x22\x33\x44",
        b"\x0a\x0b\x0c\x0d\x11\x22\x33\x44",
        (0, 0),
        b"",
    ),
    (
        10,
        b"\x0a\x0b\x0c\x0d\x00\x00\x00\x05\x00\x02\x07\x00\x00\x01\x09\x00\x00\x00\x00\x01",
        b"\x0a\x0b\x0c\x0d\x00\x00\x00\x05\x00\x02\x07\x00\x00\x01\x09\x00\x00\x00\x00\x01",
        (0, 0),
        b"",
    ),
    (
        11,
        b"\x0a\x0b\x0c\x0d\x11\x22\x33\x44",
        b"\x0a\x0b\x0c\x0d\x11\x22\x33\x44",
        (0, 0),
        b"",
    ),
    (
        12,
        b"\x0a\x0b\x0c\x0d\x11\x22\x33\x44",
        b"\x0a\x0b\x0c\x0d\x11\x22\x33\x44",
        (0, 0),
        b"",
    ),
    (
        13,
        b"\x0a\x0b\x0c\x0d\x01\x02\x03\x04",
        b"\x0a\x0b\x0c\x0d\x01\x02\x03\x04",
        (0, 0),
        b"",
    ),
    (
        14,
        b"\x0a\x0b\x0c\x0d\x01\x02\x03\x04",
        b"\x0a\x0b\x0c\x0d\x01\x02\x03\x04",
        (0, 0),
        b"",
    ),
    (
        15,
        b"\x0a\x0b\x0c\x0d\x01\x02\x03\x04\x11\x22\x33\x44",
        b"\x0a\x0b\x0c\x0d\x01\x02\x03\x04\x11\x22\x33\x44",
        (0, 0),
        b"",
    ),
    (
        16,
        b"\x01\x02\x03\x04\x00\x00\x00\x05\x11\x22\x33\x44",
        b"\x01\x02\x03\x04\x00\x00\x00\x05\x11\x22\x33\x44",
        (0, 0),
        b"",
    ),
    (
        17,
        b"\x01\x02\x03\x04\x00\x00\x00\x05\x11\x22\x33\x44\x00\x02\x00\x00\x00\x05\x00\x00\x00\x00\x01\x01\x00\x01\x63\x00\x00\x00\x06\x07\x00\x00\x01\x09\x02",
        b"\x01\x02\x03\x04\x00\x00\x00\x05\x11\x22\x33\x44\x00\x02\x00\x00\x00\x05\x00\x00\x00\x00\x01\x01\x00\x00\x00\x01\x63\x00\x00\x00\x06\x07\x00\x00\x01\x09\x02",
        (0, 0),
        b"",
    ),
    (
        18,
        b"\x0a\x0b\x0c\x0d\x02\x01\x01\x01\x02\x02\x01\x01\x08\x02\x01\x0c\x01\x0d\x00\x00\x00\x05\x00\x01\x07\x00\x00\x01\x09\x00",
        b"\x0a\x0b\x0c\x0d\x02\x01\x01\x01\x02\x02\x01\x01\x08\x02\x01\x0c\x01\x0d\x00\x00\x00\x05\x00\x01\x07\x00\x00\x01\x09\x00",
        (0, 0),
        b"",
    ),
    (
        19,
        b"\x0a\x0b\x0c\x0d\x00\x00\x00\x05\x00\x01\x07\x00\x00\x01\x09\x02",
        b"\x0a\x0b\x0c\x0d\x00\x00\x00\x05\x00\x01\x07\x00\x00\x01\x09\x02",
        (0, 0),
        b"",
    ),
    (20, b"\x0a\x0b\x0c\x0d", b"\x0a\x0b\x0c\x0d", (0, 0), b""),
    (21, b"\x0a\x0b\x0c\x0d", b"\x0a\x0b\x0c\x0d", (0, 0), b""),
    (
        22,
        b"\x0a\x0b\x0c\x0d\x11\x22\x33\x44\x00\x01\x00\x00\x01\x02\x03\x02\x00\x00\x00\x00\x00\x00\x01",
        b"\x0a\x0b\x0c\x0d\x11\x22\x33\x44\x00\x01\x00\x00\x01\x02\x03\x02\x00\x00\x00\x00\x00\x00\x01",
        (23, 503),
        b"\x00\x01\x07\x00\x00\x01\x09\x00",
    ),
    (23, b"\x0a\x0b\x0c\x0d", b"\x0a\x0b\x0c\x0d", (0, 0), b""),
    (
        24,
        b"\x0a\x0b\x0c\x0d\x02\x01\x01\x01\x02\x02\x01\x01\x08\x02\x01\x0c\x01\x0d\x00\x00\x00\x05\x00\x01\x00\x00\x01\x02\x03\x02\x00\x00\x00\x00\x00\x00\x01",
        b"\x0a\x0b\x0c\x0d\x02\x01\x01\x01\x02\x02\x01\x01\x08\x02\x01\x0c\x01\x0d\x00\x00\x00\x05\x00\x01\x00\x00\x01\x02\x03\x02\x00\x00\x00\x00\x00\x00\x01",
        (23, 503),
        b"",
    ),
    (25, b"\x0a\x0b\x0c\x0d", b"\x0a\x0b\x0c\x0d", (0, 0), b""),
    (26, b"", b"", (0, 0), b""),
    (
        27,
        b"\x0a\x0b\x0c\x0d\x02\x01\x01\x01\x02\x02\x01\x01\x08\x02\x01\x0c\x01\x0d",
        b"\x0a\x0b\x0c\x0d\x02\x01\x01\x01\x02\x02\x01\x01\x08\x02\x01\x0c\x01\x0d",
        (0, 0),
        b"",
    ),
    (28, b"\x11\x22\x33\x44", b"\x11\x22\x33\x44", (0, 0), b""),
    (
        29,
        b"\x01\x02\x03\x04\x11\x22\x33\x44",
        b"\x01\x02\x03\x04\x11\x22\x33\x44",
        (0, 0),
        b"",
    ),
    (30, b"\x01\x02\x03\x04", b"\x01\x02\x03\x04", (0, 0), b""),
    (
        31,
        b"\x01\x02\x03\x04\x11\x22\x33\x44",
        b"\x01\x02\x03\x04\x11\x22\x33\x44",
        (0, 0),
        b"",
    ),
];

const VIEW: u32 = 0x0a0b_0c0d;

const READ: u32 = 0x0102_0304;

const UPTO: u32 = 0x1122_3344;

fn id(client: u32, number: u32) -> Result<RecordId, Fail> {
    Ok(RecordId::new(client, number).ok().ok_or("an identity")?)
}

fn item(alloc: Global) -> Result<ItemList, Fail> {
    let mut items = ItemList::new(alloc);
    items.push(Item {
        id: id(7, 265)?,
        bytes: None,
    })?;
    Ok(items)
}

fn items(alloc: Global) -> Result<ItemList, Fail> {
    let mut items = item(alloc)?;
    let bytes = Bytes::copy(alloc, b"c")?;
    items.push(Item {
        id: id(0, 1)?,
        bytes: Some(bytes),
    })?;
    Ok(items)
}

fn noop(alloc: Global) -> Result<CellList, Fail> {
    let mut cells = CellList::new(alloc);
    cells.push(Cell {
        id: id(7, 265)?,
        body: Body::Noop,
    })?;
    Ok(cells)
}

fn cells(alloc: Global) -> Result<CellList, Fail> {
    let mut cells = CellList::new(alloc);
    cells.push(Cell {
        id: id(7, 265)?,
        body: Body::Elsewhere,
    })?;
    let bytes = Bytes::copy(alloc, b"c")?;
    cells.push(Cell {
        id: id(0, 1)?,
        body: Body::Kept(bytes),
    })?;
    cells.push(Cell {
        id: id(7, 265)?,
        body: Body::Noop,
    })?;
    Ok(cells)
}

fn ids(alloc: Global) -> Result<IdList, Fail> {
    let mut ids = IdList::new(alloc);
    ids.push(id(7, 265)?)?;
    ids.push(id(0, 1)?)?;
    Ok(ids)
}

fn entries(alloc: Global) -> Result<PlacedList, Fail> {
    let mut entries = PlacedList::new(alloc);
    let bytes = Bytes::copy(alloc, b"c")?;
    entries.push((5, Entry::Kept(id(0, 1)?, bytes)))?;
    entries.push((6, Entry::Noop(id(7, 265)?)))?;
    Ok(entries)
}

fn nodes(alloc: Global, numbers: &[u32]) -> Result<NodeList, Fail> {
    let mut nodes = NodeList::new(alloc);
    for number in numbers {
        nodes.push(*number)?;
    }
    Ok(nodes)
}

fn config(alloc: Global) -> Result<Config, Fail> {
    let mut shards = ShardList::new(alloc);
    shards.push(nodes(alloc, &[264])?)?;
    shards.push(nodes(alloc, &[268, 269])?)?;
    let seq = nodes(alloc, &[257, 258])?;
    Ok(Config {
        view: VIEW,
        seq,
        shards,
    })
}

/// Of the numbers up to 258 these are marked: 258, 257, 249 and 194.
fn window(alloc: Global, edition: Edition) -> Result<WindowList, Fail> {
    let words = match edition {
        Edition::One => 4,
        Edition::Two => 64,
    };
    let mut bits = Words::new(alloc);
    bits.push(0x203)?;
    bits.push(1)?;
    for _ in 2..words {
        bits.push(0)?;
    }
    let mut window = WindowList::new(alloc);
    window.push(Marks { top: 258, bits })?;
    Ok(window)
}

fn with_id(alloc: Global, kind: u8) -> Result<Msg, Fail> {
    let id = id(7, 265)?;
    let bytes = Bytes::copy(alloc, b"ab")?;
    match kind {
        1 => Ok(Msg::Append {
            view: VIEW,
            id,
            bytes: Some(bytes),
        }),
        2 => Ok(Msg::AppendAck { view: VIEW, id }),
        3 => Ok(Msg::Put { id, bytes }),
        4 => Ok(Msg::DataAck { view: VIEW, id }),
        _ => Ok(Msg::Rejected { id, place: UPTO }),
    }
}

fn with_list(alloc: Global, kind: u8) -> Result<Msg, Fail> {
    match kind {
        6 => Ok(Msg::Place {
            view: VIEW,
            from: 5,
            items: items(alloc)?,
        }),
        8 => Ok(Msg::Copy {
            view: VIEW,
            from: 5,
            cells: cells(alloc)?,
        }),
        10 => Ok(Msg::Order {
            view: VIEW,
            from: 5,
            ids: ids(alloc)?,
        }),
        17 => Ok(Msg::Part {
            read: READ,
            from: 5,
            end: UPTO,
            entries: entries(alloc)?,
        }),
        _ => Ok(Msg::FlushCopy {
            view: VIEW,
            from: 5,
            cells: noop(alloc)?,
        }),
    }
}

fn with_config(alloc: Global, edition: Edition, kind: u8) -> Result<Msg, Fail> {
    let config = config(alloc)?;
    match kind {
        18 => Ok(Msg::Flush {
            config,
            from: 5,
            items: item(alloc)?,
        }),
        24 => Ok(Msg::NewView {
            config,
            base: 5,
            window: window(alloc, edition)?,
        }),
        _ => Ok(Msg::ViewIs { config }),
    }
}

fn sealed(alloc: Global, edition: Edition) -> Result<Msg, Fail> {
    let window = window(alloc, edition)?;
    Ok(Msg::Sealed {
        view: VIEW,
        bound: UPTO,
        window,
        items: item(alloc)?,
    })
}

fn of_numbers(kind: u8) -> Msg {
    match kind {
        7 => Msg::Placed {
            view: VIEW,
            upto: UPTO,
        },
        9 => Msg::Copied {
            view: VIEW,
            upto: UPTO,
        },
        11 => Msg::Ordered {
            view: VIEW,
            upto: UPTO,
        },
        12 => Msg::Stable {
            view: VIEW,
            upto: UPTO,
        },
        13 => Msg::Probe {
            view: VIEW,
            read: READ,
        },
        14 => Msg::ProbeAck {
            view: VIEW,
            read: READ,
        },
        15 => Msg::TailReady {
            view: VIEW,
            read: READ,
            tail: UPTO,
        },
        16 => Msg::Fetch {
            read: READ,
            from: 5,
            to: UPTO,
        },
        20 => Msg::Flushed { view: VIEW },
        21 => Msg::Seal { view: VIEW },
        23 => Msg::SealedEmpty { view: VIEW },
        25 => Msg::Started { view: VIEW },
        26 => Msg::AskView,
        28 => Msg::Claim { stable: UPTO },
        29 => Msg::Trim {
            read: READ,
            floor: UPTO,
        },
        30 => Msg::TrimAck { read: READ },
        _ => Msg::TrimmedAt {
            read: READ,
            floor: UPTO,
        },
    }
}

fn message(alloc: Global, edition: Edition, kind: u8) -> Result<Msg, Fail> {
    match kind {
        1..=5 => with_id(alloc, kind),
        6 | 8 | 10 | 17 | 19 => with_list(alloc, kind),
        18 | 24 | 27 => with_config(alloc, edition, kind),
        22 => sealed(alloc, edition),
        _ => Ok(of_numbers(kind)),
    }
}

fn check(
    rt: &impl Abort,
    alloc: Global,
    edition: Edition,
    env: &Envelope,
    want: &[u8],
) -> Result<(), Fail> {
    let is_within = fits(edition, env);
    assert!(rt; is_within);
    let frame = encode(alloc, edition, env)?;
    assert_eq!(rt; frame.as_slice(), want);
    Ok(())
}

fn wanted(
    alloc: Global,
    version: u8,
    kind: u8,
    fields: &[u8],
    zeros: usize,
    behind: &[u8],
) -> Result<Vec<u8>, Fail> {
    let mut want = Vec::new(alloc);
    want.push(version)?;
    want.push(kind)?;
    want.extend_from_slice(&[1, 1, 1, 8, 0, 0, 0, 1, 2, 3, 4, 5])?;
    want.extend_from_slice(fields)?;
    for _ in 0..zeros {
        want.push(0)?;
    }
    want.extend_from_slice(behind)?;
    Ok(want)
}

fn envelope(alloc: Global, edition: Edition, kind: u8) -> Result<Envelope, Fail> {
    let msg = message(alloc, edition, kind)?;
    Ok(Envelope {
        from: 257,
        to: 264,
        time: 0x01_0203_0405,
        msg,
    })
}

fn check_one(
    rt: &impl Abort,
    alloc: Global,
    kind: u8,
    fields: &[u8],
    zeros: usize,
    behind: &[u8],
) -> Result<(), Fail> {
    let env = envelope(alloc, Edition::One, kind)?;
    if kind > 28 {
        let is_within = fits(Edition::One, &env);
        assert!(rt; !is_within);
        return Ok(());
    }
    let want = wanted(alloc, 1, kind, fields, zeros, behind)?;
    check(rt, alloc, Edition::One, &env, &want)
}

fn check_two(
    rt: &impl Abort,
    alloc: Global,
    kind: u8,
    fields: &[u8],
    zeros: usize,
    behind: &[u8],
) -> Result<(), Fail> {
    let env = envelope(alloc, Edition::Two, kind)?;
    let want = wanted(alloc, 2, kind, fields, zeros, behind)?;
    check(rt, alloc, Edition::Two, &env, &want)
}

#[test]
fn each_kind(rt: HostRuntime) -> Result<(), Fail> {
    for (kind, one, two, zeros, behind) in FIELDS {
        check_one(&rt, rt.alloc(), kind, one, zeros.0, behind)?;
        check_two(&rt, rt.alloc(), kind, two, zeros.1, behind)?;
    }
    Ok(())
}

#[test]
fn shown(rt: HostRuntime) -> Result<(), Fail> {
    let alloc = rt.alloc();
    let bytes = Some(Bytes::copy(alloc, b"a")?);
    let msg = Msg::Append {
        view: 1,
        id: id(0, 1)?,
        bytes,
    };
    let env = Envelope {
        from: 0,
        to: 257,
        time: 1,
        msg,
    };
    check(
        &rt,
        alloc,
        Edition::One,
        &env,
        b"\x01\x01\x00\x00\x01\x01\x00\x00\x00\x00\x00\x00\x00\x01\x00\x00\x00\x01\x00\x00\x00\x00\x01\x01\x00\x01\x61",
    )
}
