//! The board itself: how it is made and closed.

ghost use Rattle.std.specs.Prelude.{◌≡◌, ℕ, ◌+◌, ◌≤◌, ◌<◌, ◌^◌, [], map, slice_get, Some, IfOk, OnErr};
ghost use Rattle.stable_board.specs.Ends.{PublisherEnd, PeekerEnd, IsKeeping, known_of, with_published, with_peeked};
ghost use Rattle.stable_board.specs.Keeping.{IsWriter, IsReader, IsRow, IsOpened, AreAll, IsClosed, did_by, seen_by, new_publisher_end, new_peeker_end};

use crate::claim::unpack;
use crate::peeker::{Peeker, PeekerList};
use crate::plays::{End, MorePeekers, MorePublishers, Settle};
use crate::publisher::{Publisher, PublisherList};
use crate::rule::{BoardSeat, SharedBoard};
use plain_lists::Sequence;
use std::alloc::{AllocError, Global};
use std::marker::Model;
use std::sync::Arc;

/// One word for the claim, and one for each place.
const WORDS: usize = 65_537;

/// Who made a board, and closes it. Contracts see how many ends it made.
#[derive(Drop)]
pub struct Keeper {
    table: Arc<SharedBoard>,
    seat: BoardSeat,
}

impl Model for Keeper {
    ghost use Rattle.std.specs.Arc.{arc_value};
    ghost use Rattle.stable_board.specs.Ends.{KeeperEnd, keeper_of, IsKeeper};

    ghost Value = { KeeperEnd };

    ghost view = { λ k. keeper_of k.seat.table_id k.seat.me.0 };

    ghost invariant = { λ k. IsKeeper (arc_value k.table).shared.table_id k.seat };
}

/// A board of 65,537 words that are 0, with so many publishers, 1 to 32, and peekers, 1 to 8. Each end
/// may go to a thread of its own.
pub fn board(
    alloc: Global,
    publishers: u32,
    peekers: u32,
) -> Result<(Keeper, PublisherList, PeekerList), AllocError>
    requires publishers { (1 ≤ publishers) × (publishers ≤ 32) }
    requires peekers { (1 ≤ peekers) × (peekers ≤ 8) }
    ensures { IfOk result (λ made. IsOpened publishers peekers made.0 made.1 made.2) }
{
    let mut keeper = Keeper::new(alloc)?;
    let writers = keeper.add_publishers(alloc, publishers)?;
    let readers = keeper.add_peekers(alloc, peekers)?;
    Ok((keeper, writers, readers))
}

impl Keeper {
    fn new(alloc: Global) -> Result<Keeper, AllocError>
        ensures { IfOk result (λ k. (k.publishers ≡ 0) × (k.peekers ≡ 0)) }
    {
        let words = Vec::from_elem(alloc, 0u64, WORDS)?;
        let (table, seat) = SharedBoard::of_words(alloc, words.as_slice(), &())?;
        Ok(Keeper {
            table: Arc::new(alloc, table)?,
            seat,
        })
    }

    fn add_publisher(&mut self) -> Result<Publisher, AllocError>
        requires { self.old.publishers < 2 ^ 5 }
        ensures keeper { IfOk result (λ _. self.new ≡ record { board = self.old.board; publishers = self.old.publishers + 1; peekers = self.old.peekers }) }
        ensures end { IfOk result (λ p. p ≡ new_publisher_end self.old.board self.old.publishers) }
        ensures err { OnErr result (self.new ≡ self.old) }
    {
        let table = Arc::try_clone(&self.table)?;
        let seat = self
            .table
            .shared
            .split_seat::<MorePublishers>(&mut self.seat);
        Ok(Publisher {
            table,
            seat,
            verified: 0,
        })
    }

    fn add_peeker(&mut self) -> Result<Peeker, AllocError>
        ensures keeper { IfOk result (λ _. self.new ≡ record { board = self.old.board; publishers = self.old.publishers; peekers = self.old.peekers + 1 }) }
        ensures end { IfOk result (λ p. p ≡ new_peeker_end self.old.board self.old.peekers) }
        ensures err { OnErr result (self.new ≡ self.old) }
    {
        let table = Arc::try_clone(&self.table)?;
        let seat = self.table.shared.split_seat::<MorePeekers>(&mut self.seat);
        Ok(Peeker { table, seat })
    }

    fn add_publishers(&mut self, alloc: Global, count: u32) -> Result<PublisherList, AllocError>
        requires none { self.old.publishers ≡ 0 }
        requires few { count ≤ 32 }
        ensures keeper { IfOk result (λ _. self.new ≡ record { board = self.old.board; publishers = count; peekers = self.old.peekers }) }
        ensures ends { IfOk result (λ writers. IsRow count (new_publisher_end self.old.board) writers) }
    {
        let mut writers = Sequence::new(alloc);
        for _number in 0..count {
            writers.push(self.add_publisher()?)?;
        }
        Ok(writers)
    }

    fn add_peekers(&mut self, alloc: Global, count: u32) -> Result<PeekerList, AllocError>
        requires none { self.old.peekers ≡ 0 }
        requires few { count ≤ 8 }
        ensures keeper { IfOk result (λ _. self.new ≡ record { board = self.old.board; publishers = self.old.publishers; peekers = count }) }
        ensures ends { IfOk result (λ readers. IsRow count (new_peeker_end self.old.board) readers) }
    {
        let mut readers = Sequence::new(alloc);
        for _number in 0..count {
            readers.push(self.add_peeker()?)?;
        }
        Ok(readers)
    }
}

impl Keeper {
    /// Ends the board, with all ends that `board` gave with this keeper, in its order. The answer is the
    /// stable number of word 0. The rule then holds over the last words and all that the ends did and
    /// saw: what a peeker saw below a claim is what the claiming replica had verified there.
    pub fn close(self, publishers: PublisherList, peekers: PeekerList) -> u32
        requires { AreAll self publishers peekers }
        ensures { IsClosed (did_by publishers) (seen_by peekers) result }
    {
        let Keeper { table, mut seat } = self;
        end_publishers(&table, &mut seat, publishers);
        end_peekers(&table, &mut seat, peekers);
        unpack(table.shared.load::<Settle>(&mut seat, 0)).stable
    }
}

/// Takes in what the publishers did.
fn end_publishers(table: &SharedBoard, seat: &mut BoardSeat, publishers: PublisherList)
    requires seat { IsKeeping table.now.shared.table_id seat.old (known_of seat.old.me.0) }
    requires none { (known_of seat.old.me.0).published ≡ [] }
    requires all { (n : ℕ) (end : PublisherEnd) → slice_get publishers n ≡ Some end → IsWriter table.now.shared.table_id n end }
    ensures { IsKeeping table.now.shared.table_id seat.new (with_published (known_of seat.old.me.0) (map (λ end. end.did) publishers)) }
{
    let mut rest = publishers.into_vec();
    while !rest.is_empty() {
        let Publisher { seat: other, .. } = rest.remove(0);
        table.shared.join_seat::<End>(seat, other);
    }
}

/// Takes in what the peekers saw.
fn end_peekers(table: &SharedBoard, seat: &mut BoardSeat, peekers: PeekerList)
    requires seat { IsKeeping table.now.shared.table_id seat.old (known_of seat.old.me.0) }
    requires none { (known_of seat.old.me.0).peeked ≡ [] }
    requires all { (n : ℕ) (end : PeekerEnd) → slice_get peekers n ≡ Some end → IsReader table.now.shared.table_id n end }
    ensures { IsKeeping table.now.shared.table_id seat.new (with_peeked (known_of seat.old.me.0) (map (λ end. end.saw) peekers)) }
{
    let mut rest = peekers.into_vec();
    while !rest.is_empty() {
        let Peeker { seat: other, .. } = rest.remove(0);
        table.shared.join_seat::<End>(seat, other);
    }
}
