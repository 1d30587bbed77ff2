//! The store as its callers see it.

ghost use Rattle.std.specs.Prelude.{◌≡◌, ◌≤◌, length, IfOk};

use plain_lists::Sequence;
use rec_id::{Body, Bytes, Cell, CellList, Item, ItemList, RecordId};
use shard_store::ShardStore;
use std::alloc::Global;
use std::test::Fail;
use view_config::Mode;

fn id(number: u32) -> Result<RecordId, Fail> {
    match RecordId::new(0, number) {
        Ok(id) => Ok(id),
        Err(_) => Err("no identity")?,
    }
}

/// Items of these numbers, with a byte of data where one is given.
fn items(alloc: Global, parts: &[(u32, Option<u8>)]) -> Result<ItemList, Fail> {
    let mut made = Sequence::new(alloc);
    for (number, byte) in parts {
        let bytes = match byte {
            Some(byte) => Some(Bytes::copy(alloc, &[*byte])?),
            None => None,
        };
        made.push(Item {
            id: id(*number)?,
            bytes,
        })?;
    }
    Ok(made)
}

/// The bodies of the order, a letter for each and the data of kept ones.
fn shown(alloc: Global, store: &ShardStore) -> Result<Vec<u8>, Fail> {
    let mut text = Vec::new(alloc);
    for place in 0..store.len() {
        match &store.cell(place).body {
            Body::Elsewhere => text.push(b'E')?,
            Body::Kept(bytes) => {
                text.push(b'K')?;
                text.extend_from_slice(bytes.as_slice())?;
            }
            Body::Noop => text.push(b'N')?,
            Body::Open => text.push(b'O')?,
            Body::Gone => text.push(b'G')?,
        }
    }
    Ok(text)
}

fn extend(store: &mut ShardStore, items: &ItemList) -> Result<(), Fail> {
    if items.len() > (u32::MAX - store.len()) as usize {
        return Err("too long")?;
    }
    store.extend(items)?;
    Ok(())
}

fn extend_cells(store: &mut ShardStore, cells: &CellList) -> Result<(), Fail> {
    if cells.len() > (u32::MAX - store.len()) as usize {
        return Err("too long")?;
    }
    store.extend_cells(cells)?;
    Ok(())
}

fn fill(store: &mut ShardStore, id: RecordId, bytes: Bytes) -> Result<(), Fail> {
    match store.open_at(id) {
        Some(place) => {
            store.fill(place, bytes);
            Ok(())
        }
        None => Err("not open")?,
    }
}

fn may_cut(store: &ShardStore, from: u32) -> Result<(), Fail>
    ensures { IfOk result (λ _. (store.now.stable ≤ from) × (from ≤ length store.now.order)) }
{
    if store.stable() > from {
        return Err("final")?;
    }
    if from > store.len() {
        return Err("past the end")?;
    }
    Ok(())
}

fn recut(store: &mut ShardStore, from: u32, items: &ItemList) -> Result<(), Fail> {
    may_cut(store, from)?;
    if items.len() > (u32::MAX - from) as usize {
        return Err("too long")?;
    }
    store.recut(from, items)?;
    Ok(())
}

fn recut_cells(store: &mut ShardStore, from: u32, cells: &CellList) -> Result<(), Fail> {
    may_cut(store, from)?;
    if cells.len() > (u32::MAX - from) as usize {
        return Err("too long")?;
    }
    store.recut_cells(from, cells)?;
    Ok(())
}

fn cut(store: &mut ShardStore, from: u32) -> Result<(), Fail> {
    may_cut(store, from)?;
    store.cut(from)?;
    Ok(())
}

fn raise_stable(store: &mut ShardStore, to: u32) -> Result<(), Fail> {
    if to < store.stable() {
        return Err("below")?;
    }
    if to > store.len() {
        return Err("past the end")?;
    }
    if store.has_open_below(to) {
        return Err("open")?;
    }
    store.raise_stable(to);
    Ok(())
}

fn trim(store: &mut ShardStore, to: u32) -> Result<(), Fail> {
    if to > store.stable() {
        return Err("not final")?;
    }
    store.trim(to);
    Ok(())
}

fn part_len(store: &ShardStore, from: u32, to: u32) -> Result<usize, Fail> {
    if from < store.floor() {
        return Err("trimmed")?;
    }
    if to > store.stable() {
        return Err("not final")?;
    }
    Ok(store.part(from, to)?.len())
}

/// The order has these bodies.
fn expect(alloc: Global, store: &ShardStore, want: &str) -> Result<(), Fail> {
    if shown(alloc, store)?.as_slice() == want.as_bytes() {
        Ok(())
    } else {
        Err("another order")?
    }
}

fn hold(alloc: Global, store: &mut ShardStore, number: u32, byte: u8) -> Result<(), Fail> {
    store.hold(id(number)?, Bytes::copy(alloc, &[byte])?)?;
    Ok(())
}

fn one_cell(alloc: Global, number: u32, body: Body) -> Result<CellList, Fail> {
    let mut cells = Sequence::new(alloc);
    cells.push(Cell {
        id: id(number)?,
        body,
    })?;
    Ok(cells)
}

fn cells_of_len(store: &ShardStore, from: u32, items: &ItemList) -> Result<usize, Fail> {
    may_cut(store, from)?;
    if items.len() > (u32::MAX - from) as usize {
        return Err("too long")?;
    }
    Ok(store.cells_of(from, items)?.len())
}

#[test]
fn held_open_noop_cut(rt: HostRuntime) -> Result<(), Fail> {
    let alloc = rt.alloc();
    let mut store = ShardStore::new(alloc, Mode::St, 0, 1);
    hold(alloc, &mut store, 1, b'a')?;
    extend(&mut store, &items(alloc, &[(1, None), (2, None)])?)?;
    expect(alloc, &store, "KaO")?;
    assert_eq!(rt; store.open_to_noop(), 1);
    assert_eq!(rt; store.noop_at(id(2)?), Some(1));
    cut(&mut store, 0)?;
    expect(alloc, &store, "")?;
    assert!(rt; store.has(id(1)?));
    Ok(())
}

/// Half of the held data is taken out, so that the rest moves when room is wanted.
#[test]
fn held_data_outlives_a_move(rt: HostRuntime) -> Result<(), Fail> {
    let alloc = rt.alloc();
    let mut store = ShardStore::new(alloc, Mode::St, 0, 1);
    for (number, byte) in [(1, b'a'), (2, b'b'), (3, b'c'), (4, b'd')] {
        hold(alloc, &mut store, number, byte)?;
    }
    extend(&mut store, &items(alloc, &[(2, None), (4, None)])?)?;
    expect(alloc, &store, "KbKd")?;
    hold(alloc, &mut store, 5, b'e')?;
    let all = [(1, None), (2, None), (3, None), (4, None), (5, None)];
    extend(&mut store, &items(alloc, &all)?)?;
    expect(alloc, &store, "KbKdKaOKcOKe")
}

/// Data comes early and late, cells as items and as they are.
fn fills_up(alloc: Global, mode: Mode, wants: [&str; 3]) -> Result<ShardStore, Fail> {
    let mut store = ShardStore::new(alloc, mode, 0, 2);
    hold(alloc, &mut store, 4, b'd')?;
    hold(alloc, &mut store, 4, b'x')?;
    let some = items(alloc, &[(2, Some(b'b')), (3, None), (4, None), (6, None)])?;
    extend(&mut store, &some)?;
    expect(alloc, &store, wants[0])?;
    extend_cells(&mut store, &one_cell(alloc, 8, Body::Open)?)?;
    let kept = Body::Kept(Bytes::copy(alloc, b"j")?);
    extend_cells(&mut store, &one_cell(alloc, 10, kept)?)?;
    expect(alloc, &store, wants[1])?;
    fill(&mut store, id(8)?, Bytes::copy(alloc, b"h")?)?;
    expect(alloc, &store, wants[2])?;
    Ok(store)
}

/// What is open closes, a front becomes final and is told and trimmed.
fn settles(alloc: Global, store: &mut ShardStore, closed: u32, want: &str) -> Result<(), Fail> {
    if store.first_open().is_some() != (closed == 1) || store.has_open() != (closed == 1) {
        return Err("open cells")?;
    }
    if store.open_to_noop() != closed {
        return Err("another count")?;
    }
    raise_stable(store, 3)?;
    trim(store, 1)?;
    if store.bytes_of(id(2)?).is_some() || !store.has(id(2)?) {
        return Err("not given up")?;
    }
    if part_len(store, 1, 3)? != 1 || store.stable() != 3 || store.floor() != 1 {
        return Err("another part")?;
    }
    expect(alloc, store, want)
}

/// The order is cut, and cut and extended.
fn is_recut(
    alloc: Global,
    store: &mut ShardStore,
    held: bool,
    wants: [&str; 3],
) -> Result<(), Fail> {
    cut(store, 5)?;
    expect(alloc, store, wants[0])?;
    if store.has(id(10)?) != held {
        return Err("held")?;
    }
    let next = items(alloc, &[(10, None)])?;
    if cells_of_len(store, 4, &next)? != 1 {
        return Err("other cells")?;
    }
    recut(store, 4, &next)?;
    expect(alloc, store, wants[1])?;
    recut_cells(store, 5, &one_cell(alloc, 12, Body::Noop)?)?;
    expect(alloc, store, wants[2])
}

#[test]
fn all_calls_where_records_go_whole(rt: HostRuntime) -> Result<(), Fail> {
    let alloc = rt.alloc();
    let mut store = fills_up(alloc, Mode::M, ["KbEKdE", "KbEKdEOKj", "KbEKdEKhKj"])?;
    settles(alloc, &mut store, 0, "GEKdEKhKj")?;
    is_recut(alloc, &mut store, false, ["GEKdEKh", "GEKdEO", "GEKdEON"])
}

#[test]
fn all_calls_where_data_comes_by_itself(rt: HostRuntime) -> Result<(), Fail> {
    let alloc = rt.alloc();
    let mut store = fills_up(alloc, Mode::St, ["KbEKdO", "KbEKdOOKj", "KbEKdOKhKj"])?;
    settles(alloc, &mut store, 1, "GEKdNKhKj")?;
    is_recut(alloc, &mut store, true, ["GEKdNKh", "GEKdNKj", "GEKdNKjN"])
}
