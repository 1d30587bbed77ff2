//! The board as its callers see it: the worked example, and claims and peeks in threads.

ghost use Rattle.std.specs.Prelude.{◌≡◌, ◌+◌, ◌<◌, ℕ, [], ◌∷◌, IfOk};
ghost use Rattle.stable_board.specs.Keeping.{IsRow};
ghost use Rattle.worked_cases.specs.Fours.{AreWriters, AreNumbered, AreNew, AreReaders, IsSameWriter, AreSameWriters, IsSameReader, AreSameReaders};

use plain_lists::Sequence;
use rec_id::{Item, ItemList, RecordId};
use shard_store::ShardStore;
use stable_board::{BoardClaim, Claimed, Keeper, Peeker, Publisher, board};
use std::alloc::Global;
use std::test::Fail;
use std::thread::{Threads, join};
use view_config::Mode;

/// How many places the greatest claim in threads is of.
const PLACES: u32 = 64;

type Writers = (Publisher, Publisher, Publisher, Publisher);

type Readers = (Peeker, Peeker, Peeker, Peeker);

fn id(client: u32, number: u32) -> Result<RecordId, Fail> {
    match RecordId::new(client, number) {
        Ok(id) => Ok(id),
        Err(_) => Err("no identity")?,
    }
}

/// The identities of a client's first appends.
fn items(alloc: Global, client: u32, count: u32) -> Result<ItemList, Fail> {
    let mut made = Sequence::new(alloc);
    for number in 0..count {
        let id = id(client, number.saturating_add(1))?;
        made.push(Item { id, bytes: None })?;
    }
    Ok(made)
}

fn settle(store: &mut ShardStore, to: u32) -> Result<(), Fail> {
    if to < store.stable() {
        return Err("below")?;
    }
    if to > store.len() {
        return Err("past the end")?;
    }
    if store.has_open_below(to) {
        return Err("open")?;
    }
    store.raise_stable(to);
    Ok(())
}

/// A store with the identities of a client's first appends in its order, of which so many are final.
fn store(alloc: Global, client: u32, count: u32) -> Result<ShardStore, Fail> {
    let mut store = ShardStore::new(alloc, Mode::M, 1, 2);
    let items = items(alloc, client, count)?;
    if items.len() > (u32::MAX - store.len()) as usize {
        return Err("too long")?;
    }
    store.extend(&items)?;
    store.open_to_noop();
    settle(&mut store, count)?;
    Ok(store)
}

/// Takes the last of a row out.
fn last<T: Drop>(row: &mut Sequence<T>) -> Result<T, Fail>
    ensures { IfOk result (λ end. (made : ℕ → T) (n : ℕ) → IsRow (n + 1) made row.old → (end ≡ made n) × IsRow n made row.new) }
{
    match row.pop() {
        Some(end) => Ok(end),
        None => Err("an empty row")?,
    }
}

fn four<T: Drop>(row: Sequence<T>) -> Result<(T, T, T, T), Fail>
    ensures { IfOk result (λ ends. (made : ℕ → T) → IsRow 4 made row → (ends.0 ≡ made 0) × (ends.1 ≡ made 1) × (ends.2 ≡ made 2) × (ends.3 ≡ made 3)) }
{
    let mut row = row;
    let fourth = last(&mut row)?;
    let third = last(&mut row)?;
    let second = last(&mut row)?;
    let first = last(&mut row)?;
    Ok((first, second, third, fourth))
}

/// A board with four ends of each kind.
fn open(alloc: Global) -> Result<(Keeper, Writers, Readers), Fail>
    ensures keeper { IfOk result (λ made. (made.0.publishers ≡ 4) × (made.0.peekers ≡ 4)) }
    ensures writers { IfOk result (λ made. AreWriters made.0.board made.1 × AreNew made.1) }
    ensures readers { IfOk result (λ made. AreReaders made.0.board made.2) }
{
    let (keeper, publishers, peekers) = board(alloc, 4, 4)?;
    let writers = four(publishers)?;
    let readers = four(peekers)?;
    Ok((keeper, writers, readers))
}

fn row<T: Drop>(alloc: Global, ends: (T, T, T, T)) -> Result<Sequence<T>, Fail>
    ensures { IfOk result (λ made. made ≡ ends.0 ∷ ends.1 ∷ ends.2 ∷ ends.3 ∷ []) }
{
    let mut made = Sequence::new(alloc);
    made.push(ends.0)?;
    made.push(ends.1)?;
    made.push(ends.2)?;
    made.push(ends.3)?;
    Ok(made)
}

fn close(alloc: Global, keeper: Keeper, writers: Writers, readers: Readers) -> Result<u32, Fail>
    requires counts { (keeper.publishers ≡ 4) × (keeper.peekers ≡ 4) }
    requires writers { AreWriters keeper.board writers }
    requires readers { AreReaders keeper.board readers }
{
    let publishers = row(alloc, writers)?;
    let peekers = row(alloc, readers)?;
    Ok(keeper.close(publishers, peekers))
}

/// The first claim of a publisher, where the store has few places.
fn claim_at(
    publisher: &mut Publisher,
    store: &ShardStore,
    time: u64,
    replica: u32,
) -> Option<Claimed>
    requires replica { replica ≡ publisher.old.replica }
    requires new { publisher.old.did.verified ≡ [] }
    ensures { IsSameWriter publisher.old publisher.new }
{
    if store.stable() > 65_536 {
        return None;
    }
    if time >= 1 << 40 {
        return None;
    }
    Some(publisher.claim(store, time, replica))
}

fn publish(publisher: Publisher, store: ShardStore, replica: u32) -> Publisher
    requires replica { replica ≡ publisher.replica }
    requires new { publisher.did.verified ≡ [] }
    ensures { IsSameWriter publisher result }
{
    let mut publisher = publisher;
    claim_at(&mut publisher, &store, 1, replica);
    publisher
}

/// The claim of most places now and, where it is of any, the last identity below it.
fn peek(peeker: &mut Peeker) -> (BoardClaim, Option<RecordId>)
    ensures { IsSameReader peeker.old peeker.new }
{
    let claim = peeker.peek();
    if claim.stable == 0 {
        return (claim, None);
    }
    let id = peeker.entry(claim.stable - 1);
    (claim, Some(id))
}

/// Whether a second peek fits the first, where replicas claim the appends of client 1 in their order.
fn fits(before: u32, claim: BoardClaim, id: Option<RecordId>) -> bool {
    match id {
        Some(id) => before <= claim.stable && id.client() == 1 && id.number() == claim.stable,
        None => before == 0,
    }
}

/// Peeks often. The answer is whether no claim fell and each entry was that of the order.
fn look(peeker: Peeker) -> (Peeker, bool)
    ensures { IsSameReader peeker result.0 }
{
    let mut peeker = peeker;
    let mut fine = true;
    let mut before = 0;
    for _peek in 0..1_000 {
        let (claim, id) = peek(&mut peeker);
        fine = fine & fits(before, claim, id);
        before = claim.stable;
    }
    (peeker, fine)
}

#[test]
fn claims_on_the_board(rt: HostRuntime) -> Result<(), Fail> {
    let alloc = rt.alloc();
    let (keeper, writers, readers) = open(alloc)?;
    let (mut first, mut second, third, fourth) = writers;
    let (mut reader, other, next, last) = readers;
    let one = store(alloc, 0, 1)?;
    assert_eq!(rt; claim_at(&mut first, &one, 7, 0), Some(Claimed::Done));
    let (claim, entry) = peek(&mut reader);
    let want = BoardClaim {
        stable: 1,
        time: 7,
        replica: 0,
    };
    assert_eq!(rt; claim, want);
    assert_eq!(rt; entry, Some(id(0, 1)?));
    let two = store(alloc, 1, 1)?;
    let stopped = Claimed::Stopped {
        place: 0,
        own: 4_294_967_297,
        found: 1,
    };
    assert_eq!(rt; claim_at(&mut second, &two, 9, 1), Some(stopped));
    let writers = (first, second, third, fourth);
    let readers = (reader, other, next, last);
    assert_eq!(rt; close(alloc, keeper, writers, readers)?, 1);
    Ok(())
}

fn publish_two<R: Threads + Sync>(
    rt: &R,
    ends: (Publisher, Publisher),
    stores: (ShardStore, ShardStore),
    first: u32,
) -> (Publisher, Publisher)
    requires numbers { (first ≡ ends.0.replica) × (first + 1 ≡ ends.1.replica) × (first < 32) }
    requires new { (ends.0.did.verified ≡ []) × (ends.1.did.verified ≡ []) }
    ensures { IsSameWriter ends.0 result.0 × IsSameWriter ends.1 result.1 }
{
    let (one, two) = ends;
    let (few, many) = stores;
    join(
        rt,
        || publish(one, few, first),
        || publish(two, many, first + 1),
    )
}

fn publish_four<R: Threads + Sync>(
    rt: &R,
    ends: Writers,
    low: (ShardStore, ShardStore),
    high: (ShardStore, ShardStore),
) -> Writers
    requires numbers { AreNumbered ends }
    requires new { AreNew ends }
    ensures { AreSameWriters ends result }
{
    let (one, two, three, four) = ends;
    let ((one, two), (three, four)) = join(
        rt,
        move || -> (Publisher, Publisher)
            requires { (one.replica ≡ 0) × (two.replica ≡ 1) × (one.did.verified ≡ []) × (two.did.verified ≡ []) }
            ensures { IsSameWriter one result.0 × IsSameWriter two result.1 }
        { publish_two(rt, (one, two), low, 0) },
        move || -> (Publisher, Publisher)
            requires { (three.replica ≡ 2) × (four.replica ≡ 3) × (three.did.verified ≡ []) × (four.did.verified ≡ []) }
            ensures { IsSameWriter three result.0 × IsSameWriter four result.1 }
        { publish_two(rt, (three, four), high, 2) },
    );
    (one, two, three, four)
}

fn look_two<R: Threads + Sync>(rt: &R, ends: (Peeker, Peeker)) -> (Peeker, Peeker, bool)
    ensures { IsSameReader ends.0 result.0 × IsSameReader ends.1 result.1 }
{
    let (one, two) = ends;
    let ((one, left), (two, right)) = join(rt, || look(one), || look(two));
    (one, two, left & right)
}

fn look_four<R: Threads + Sync>(rt: &R, ends: Readers) -> (Readers, bool)
    ensures { AreSameReaders ends result.0 }
{
    let (one, two, three, four) = ends;
    let ((one, two, left), (three, four, right)) = join(
        rt,
        || look_two(rt, (one, two)),
        || look_two(rt, (three, four)),
    );
    ((one, two, three, four), left & right)
}

/// Four publishers and four peekers, each in a thread of its own.
#[test]
fn claims_and_peeks_in_threads(rt: HostRuntime) -> Result<(), Fail> {
    let alloc = rt.alloc();
    let (keeper, writers, readers) = open(alloc)?;
    let low = (store(alloc, 1, 16)?, store(alloc, 1, PLACES)?);
    let high = (store(alloc, 1, 32)?, store(alloc, 1, 48)?);
    let (writers, (readers, fine)) = join(
        &rt,
        || publish_four(&rt, writers, low, high),
        || look_four(&rt, readers),
    );
    assert!(rt; fine, "a claim fell, or an entry was of another place");
    assert_eq!(rt; close(alloc, keeper, writers, readers)?, PLACES);
    Ok(())
}
