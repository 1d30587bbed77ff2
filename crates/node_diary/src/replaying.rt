//! What diaries come to: the trail of the run of their merge, without a world.

ghost use Rattle.std.specs.Prelude.{◌≡◌, ◌+◌, ◌*◌, ◌∷◌, [], ◌++◌, map, if◌then◌else◌, IfOk, OnOk};
ghost use Rattle.std.specs.List.{flat_map, range_with_len};
ghost use Rattle.view_config.specs.Nodes.{seq_id};
ghost use Rattle.view_config.specs.Shape.{IsShape};
ghost use Rattle.list_facts.specs.Lists.{Each};
ghost use Rattle.lazy_core.specs.Filled.{spared_line, spared_lines};
ghost use Rattle.lazy_core.specs.Standing.{world_of_standing};
ghost use Rattle.node_diary.specs.declared.fold.Telling.{Telling};
ghost use Rattle.node_diary.specs.Folding.{IsHistoryOf, crash_of, crashed_in, found_state, found_tellings, nodes_in_order, shard_number};
ghost use Rattle.diary_merge.specs.Merging.{AreWhole};
ghost use Rattle.node_diary.specs.Replaying.{HasDiaries, IsReplay};
ghost use Rattle.node_diary.specs.States.{HasNode};

use crate::fold::{Telling, fold};
use lazy_core::{HolderLine, HolderLines, LineError, Snapshot, StateList, Trail};
use lazy_msgs::{Diary, DiaryList, Input};
use plain_lists::Sequence;
use rec_id::EventList;
use std::alloc::{AllocError, Global};
use view_config::{CONTROLLER, NodeList, Shape, seq_id, shard_id};

fn add_clients(shape: &Shape, nodes: &mut Vec<u32>) -> Result<(), AllocError>
    ensures added { OnOk result (nodes.new.items ≡ nodes.old.items ++ range_with_len 0 shape.now.clients) }
    ensures valid { IsShape shape.now }
{
    for c in 0..shape.clients {
        nodes.push(c)?;
    }
    Ok(())
}

fn add_seqs(shape: &Shape, nodes: &mut Vec<u32>) -> Result<(), AllocError>
    ensures { OnOk result (nodes.new.items ≡ nodes.old.items ++ map seq_id (range_with_len 0 (shape.now.seq + shape.now.spares))) }
{
    for i in 0..shape.seq + shape.spares {
        nodes.push(seq_id(i))?;
    }
    Ok(())
}

fn add_shards(shape: &Shape, nodes: &mut Vec<u32>) -> Result<(), AllocError>
    ensures { OnOk result (nodes.new.items ≡ nodes.old.items ++ map (shard_number shape.now) (range_with_len 0 (shape.now.shards * shape.now.copies))) }
{
    for k in 0..shape.shards * shape.copies {
        nodes.push(shard_id(k / shape.copies, k % shape.copies))?;
    }
    Ok(())
}

/// The nodes of a shape in the order in which their states stand.
fn nodes_in_order(alloc: Global, shape: &Shape) -> Result<Vec<u32>, AllocError>
    ensures nodes { IfOk result (λ nodes. nodes.items ≡ nodes_in_order shape.now) }
    ensures had { IfOk result (λ nodes. Each (HasNode shape.now) nodes.items) }
    ensures valid { IsShape shape.now }
{
    let mut nodes = Vec::new(alloc);
    add_clients(shape, &mut nodes)?;
    nodes.push(CONTROLLER)?;
    add_seqs(shape, &mut nodes)?;
    add_shards(shape, &mut nodes)?;
    Ok(nodes)
}

/// Folds the diaries of these nodes, in their order.
fn fold_all(
    alloc: Global,
    shape: &Shape,
    diaries: &DiaryList,
    nodes: &[u32],
    tellings: &mut Vec<Telling>,
) -> Result<StateList, AllocError>
    requires { Each (HasNode shape.now) nodes.now }
    ensures states { IfOk result (λ states. states ≡ map (found_state shape.now diaries.now) nodes.now) }
    ensures told { OnOk result (tellings.new.items ≡ tellings.old.items ++ flat_map (found_tellings shape.now diaries.now) nodes.now) }
{
    let mut states = Sequence::new(alloc);
    for i in 0..nodes.len() {
        states.push(fold(alloc, shape, diaries, nodes[i], tellings)?)?;
    }
    Ok(states)
}

/// The diary ends in a crash.
fn ends_in_crash(diary: &Diary) -> bool
    ensures { (if result then diary.now.node ∷ [] else []) ≡ crash_of diary.now }
{
    match diary.entries.as_slice().last() {
        Some(entry) => matches!(entry.input, Input::Crash),
        None => false,
    }
}

/// The nodes whose diary ends in a crash.
fn crashed_in(alloc: Global, diaries: &[Diary]) -> Result<NodeList, AllocError>
    ensures { IfOk result (λ nodes. nodes ≡ crashed_in diaries.now) }
{
    let mut nodes = Sequence::new(alloc);
    for diary in diaries {
        if ends_in_crash(diary) {
            nodes.push(diary.node)?;
        }
    }
    Ok(nodes)
}

/// What was told, one after the other.
fn joined(alloc: Global, tellings: Vec<Telling>) -> Result<EventList, AllocError>
    ensures { IfOk result (λ history. history ≡ flat_map (λ (telling : Telling). telling.events) tellings.items) }
{
    let mut history = Sequence::new(alloc);
    for telling in tellings {
        history.append(telling.events)?;
    }
    Ok(history)
}

/// What was told, in the order of the keys.
fn history_of(alloc: Global, tellings: Vec<Telling>) -> Result<EventList, AllocError>
    ensures { IfOk result (IsHistoryOf tellings.items) }
{
    let mut tellings = tellings;
    tellings.sort_by_key(|telling| telling.key)?;
    joined(alloc, tellings)
}

/// Adds the line of one holder, if it isn't lost.
fn add_line(snapshot: &Snapshot, holder: u32, lines: &mut HolderLines) -> Result<(), AllocError>
    ensures { OnOk result (lines.new ≡ lines.old ++ spared_line (world_of_standing snapshot.now) holder) }
{
    match snapshot.line(holder) {
        Ok(line) => lines.push(HolderLine { holder, line }),
        Err(LineError::Lost(_)) => Ok(()),
        Err(LineError::Memory) => Err(AllocError),
    }
}

/// The lines of these holders that aren't lost.
fn lines_at(alloc: Global, snapshot: &Snapshot, nodes: &[u32]) -> Result<HolderLines, AllocError>
    ensures { IfOk result (λ lines. lines ≡ flat_map (spared_line (world_of_standing snapshot.now)) nodes.now) }
{
    let mut lines = Sequence::new(alloc);
    for holder in nodes {
        add_line(snapshot, *holder, &mut lines)?;
    }
    Ok(lines)
}

fn lines_of(alloc: Global, snapshot: &Snapshot) -> Result<HolderLines, AllocError>
    ensures { IfOk result (λ lines. lines ≡ spared_lines (world_of_standing snapshot.now)) }
{
    let holders = snapshot.holders()?;
    lines_at(alloc, snapshot, holders.as_slice())
}

/// The trail of diaries: they themselves, the history of the run of their merge, and the line of each holder whose line
/// isn't lost. Each diary is folded by itself, and no world is run, so its limits don't bind.
///
/// The diaries are those of all nodes of the shape, well formed and closed and within their limits. Of other diaries the
/// history and the lines mean nothing. Beside the steps it takes time n log n in the entries of all diaries.
pub fn replay(alloc: Global, shape: &Shape, diaries: DiaryList) -> Result<Trail, AllocError>
    ensures diaries { IfOk result (HasDiaries diaries) }
    ensures replay { IfOk result (λ trail. AreWhole shape.now diaries → IsReplay shape.now diaries trail) }
{
    let nodes = nodes_in_order(alloc, shape)?;
    let mut tellings = Vec::new(alloc);
    let states = fold_all(alloc, shape, &diaries, nodes.as_slice(), &mut tellings)?;
    let crashed = crashed_in(alloc, diaries.as_slice())?;
    let history = history_of(alloc, tellings)?;
    let snapshot = Snapshot::new(shape, states, crashed);
    let lines = lines_of(alloc, &snapshot)?;
    Ok(Trail {
        history,
        lines,
        diaries,
        polls: Sequence::new(alloc),
        claimed: 0,
    })
}
