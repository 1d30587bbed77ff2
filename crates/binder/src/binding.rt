//! The binder itself.

ghost use Rattle.std.specs.Prelude.{◌≡◌, ℕ, ◌+◌, ◌^◌, ◌<◌, ◌≤◌, length, nat_lt, not, option_map, slice_get, Some, IfOk, is_some};
ghost use Rattle.lazy_rules.specs.Flight.{Probe, flight_end, with_batch, with_order, lacks_place, lacks_order, finish, has_all, has_later_probe, has_ordering, has_placing, greatest, passed, place_noted, ready, with_place};
ghost use Rattle.binder.specs.Held.{AllFor};
ghost use Rattle.binder.specs.Sound.{IsFlight};
ghost use Rattle.binder.specs.Binding.{first_binding, leaving, outline, probe_of, placed_flight, placed_progress, ordered_flight, ordered_progress, probes_with, after_finish, after_ready};

use crate::batch::{Batch, Progress};
use crate::flight::{self, order, place};
use crate::probe::Probe;
use crate::slot::Slot;
use crate::waiting::Reads;
use lazy_msgs::BATCH_LIMIT;
use lazy_rules::FLIGHT_LIMIT;
use std::alloc::{AllocError, Global};
use std::marker::Model;
use view_config::MAX_CLIENTS;

/// The batches of a leader that are on their way, at most four, and the reads that wait, at most one
/// of each client. No call but [`Binder::new`] takes memory.
#[derive(Drop)]
pub struct Binder {
    shards: u32,
    followers: u32,
    flight: Vec<Slot>,
    spare: Vec<Slot>,
    reads: Reads,
}

impl Model for Binder {
    ghost use Rattle.std.specs.Prelude.{vec_capacity};
    ghost use Rattle.binder.specs.Held.{batches, IsKept};
    ghost use Rattle.binder.specs.Binding.{Binding};

    ghost Value = { Binding };

    ghost view = { λ a. record { shards = a.shards; followers = a.followers; flight = batches a.flight.items; probes = a.reads } };

    ghost invariant = { λ a. IsKept a.shards a.followers a.flight.items a.spare.items (vec_capacity a.flight) (vec_capacity a.spare) };
}

/// Room for as many batches as are on their way at most.
fn room(alloc: Global, shards: u32, followers: u32) -> Result<Vec<Slot>, AllocError>
    ensures all { IfOk result (λ made. AllFor shards followers made.items) }
    ensures count { IfOk result (λ made. length made.items ≡ FLIGHT_LIMIT) }
{
    let mut room = Vec::with_capacity(alloc, FLIGHT_LIMIT as usize)?;
    for _slot in 0..FLIGHT_LIMIT {
        room.push(Slot::new(alloc, shards, followers)?)?;
    }
    Ok(room)
}

impl Binder {
    ghost use Rattle.binder.specs.Binding.{Binding};

    /// Nothing is on its way. Each batch awaits the answers of `shards` shards and then of `followers`
    /// followers.
    pub fn new(alloc: Global, shards: u32, followers: u32) -> Result<Binder, AllocError>
        ensures { IfOk result (λ made. made ≡ first_binding shards followers) }
    {
        Ok(Binder {
            shards,
            followers,
            flight: Vec::with_capacity(alloc, FLIGHT_LIMIT as usize)?,
            spare: room(alloc, shards, followers)?,
            reads: Reads::new(alloc)?,
        })
    }

    /// How many shards a batch awaits the answers of.
    pub fn shards(&self) -> u32
        ensures { result ≡ self.now.shards }
    {
        self.shards
    }

    /// How many followers a batch awaits the answers of.
    pub fn followers(&self) -> u32
        ensures { result ≡ self.now.followers }
    {
        self.followers
    }

    /// How many batches are on their way. Each begins where the one before it ends, and those that are
    /// ordered come first.
    pub fn flight(&self) -> u32
        ensures count { result ≡ length self.now.flight }
        ensures sound { IsFlight self.now.flight }
    {
        self.flight.len() as u32
    }

    /// Batch `i`, counted from 0 in the order of the positions.
    pub fn batch(&self, i: u32) -> Batch
        requires { i < length self.now.flight }
        ensures { option_map outline (slice_get self.now.flight i) ≡ Some result }
    {
        self.flight[i as usize].outline()
    }

    /// A batch of `count` items begins at position `from`. Nobody has answered for it.
    pub fn begin(&mut self, from: u32, count: u32)
        requires room { length self.old.flight < FLIGHT_LIMIT }
        requires some { 1 ≤ count }
        requires most { count ≤ BATCH_LIMIT }
        requires next { flight_end from self.old.flight ≡ from }
        requires within { from + count < 2 ^ 32 }
        ensures { self.new ≡ record self.old { flight = with_batch self.old.flight from count } }
    {
        let mut slot = match self.spare.pop() {
            Some(slot) => slot,
            None => unreachable!(),
        };
        slot.begin(from, count);
        self.flight.push_reserved(slot);
    }

    /// Shard `shard` placed all positions below `upto`. The answer is noted at the batch that ends
    /// there and is being placed; then each batch is to be ordered that every shard answered for, up
    /// to the first that still lacks an answer.
    pub fn placed(&mut self, shard: u32, upto: u32) -> Progress
        requires { shard < self.old.shards }
        ensures next { self.new ≡ record self.old { flight = placed_flight self.old.shards self.old.flight shard upto } }
        ensures progress { result ≡ placed_progress self.old.shards self.old.flight shard upto }
    {
        place(&mut self.flight, shard, upto)
    }

    /// Follower `follower` ordered all positions below `upto`. The answer is noted at the batch that
    /// ends there and is to be ordered.
    pub fn ordered(&mut self, follower: u32, upto: u32) -> Progress
        requires { follower < self.old.followers }
        ensures next { self.new ≡ record self.old { flight = ordered_flight self.old.flight follower upto } }
        ensures progress { result ≡ ordered_progress self.old.flight upto }
    {
        order(&mut self.flight, follower, upto)
    }

    /// A batch is being placed that ends at `upto`.
    pub fn has_placing(&self, upto: u32) -> bool
        ensures { result ≡ has_placing self.now.flight upto }
    {
        flight::has_placing(&self.flight, upto)
    }

    /// Every shard answered for batch `i`, once this one has, for all positions below `upto`.
    pub fn is_placed_with(&self, i: u32, shard: u32, upto: u32) -> bool
        requires there { i < length self.now.flight }
        requires known { shard < self.now.shards }
        ensures { option_map (λ batch. has_all self.now.shards (place_noted upto shard batch).placed) (slice_get self.now.flight i) ≡ Some result }
    {
        self.flight[i as usize].is_placed_with(shard, upto)
    }

    /// How many batches leave once the shard's answer is noted.
    pub fn leaving_placed(&self, shard: u32, upto: u32) -> u32
        requires { shard < self.now.shards }
        ensures leaving { result ≡ leaving self.now.followers (passed self.now.shards (with_place self.now.flight shard upto)) }
        ensures few { result ≤ length self.now.flight }
    {
        flight::leaving_placed(&self.flight, shard, upto)
    }

    /// A batch is ordered that ends at `upto`.
    pub fn has_ordering(&self, upto: u32) -> bool
        ensures { result ≡ has_ordering self.now.flight upto }
    {
        flight::has_ordering(&self.flight, upto)
    }

    /// How many batches leave once the follower's answer is noted.
    pub fn leaving_ordered(&self, follower: u32, upto: u32) -> u32
        requires { follower < self.now.followers }
        ensures leaving { result ≡ leaving self.now.followers (with_order self.now.flight follower upto) }
        ensures few { result ≤ length self.now.flight }
    {
        flight::leaving_ordered(&self.flight, follower, upto)
    }

    fn is_finished(&self) -> bool
        ensures { result ≡ is_some (finish self.now.followers self.now.flight) }
    {
        match self.flight.first() {
            Some(first) => first.is_finished(),
            None => false,
        }
    }

    /// Takes out the first batch where every follower answered for it.
    pub fn finish(&mut self) -> Option<Batch>
        ensures first { result ≡ option_map outline (finish self.old.followers self.old.flight) }
        ensures next { self.new ≡ record self.old { flight = after_finish self.old.followers self.old.flight } }
    {
        if !self.is_finished() {
            return None;
        }
        let first = self.flight.remove(0);
        let batch = first.outline();
        self.spare.push_reserved(first);
        Some(batch)
    }

    /// Batch `i` lacks the answer of this shard.
    pub fn lacks_place(&self, i: u32, shard: u32) -> bool
        requires there { i < length self.now.flight }
        requires known { shard < self.now.shards }
        ensures { option_map (λ batch. lacks_place batch shard) (slice_get self.now.flight i) ≡ Some result }
    {
        self.flight[i as usize].lacks_place(shard)
    }

    /// Batch `i` lacks the answer of this follower.
    pub fn lacks_order(&self, i: u32, follower: u32) -> bool
        requires there { i < length self.now.flight }
        requires known { follower < self.now.followers }
        ensures { option_map (λ batch. lacks_order batch follower) (slice_get self.now.flight i) ≡ Some result }
    {
        self.flight[i as usize].lacks_order(follower)
    }

    /// Read `read` of client `client` waits until all positions below `target` are bound, in place of
    /// an older read of this client, or last. `false` where this read of the client or a later one
    /// waits; then nothing changes.
    pub fn probe(&mut self, client: u32, read: u32, target: u32) -> bool
        requires { client < MAX_CLIENTS }
        ensures kept { result ≡ not (has_later_probe self.old.probes client read) }
        ensures next { self.new ≡ record self.old { probes = probes_with self.old.probes (record { client = client; read = read; target = target }) } }
    {
        self.reads.keep(client, read, target)
    }

    /// Takes out the first read that need not wait where all positions below `bound` are bound.
    pub fn ready(&mut self, bound: u32) -> Option<Probe>
        ensures first { option_map probe_of result ≡ ready bound self.old.probes }
        ensures next { self.new ≡ record self.old { probes = after_ready bound self.old.probes } }
    {
        self.reads.take_ready(bound)
    }

    /// Whether a read waits.
    pub fn waiting(&self) -> bool
        ensures some { result ≡ nat_lt 0 (length self.now.probes) }
        ensures few { length self.now.probes ≤ MAX_CLIENTS }
    {
        !self.reads.is_empty()
    }

    /// This read of the client waits, or a later one.
    pub fn has_later_read(&self, client: u32, read: u32) -> bool
        ensures { result ≡ has_later_probe self.now.probes client read }
    {
        self.reads.has_later(client, read)
    }

    /// How many reads wait.
    pub fn reads(&self) -> u32
        ensures { result ≡ length self.now.probes }
    {
        self.reads.len()
    }

    /// Read `i` of those that wait, counted from 0 in their order.
    pub fn read(&self, i: u32) -> Probe
        requires { i < length self.now.probes }
        ensures { slice_get self.now.probes i ≡ Some (probe_of result) }
    {
        self.reads.at(i)
    }

    /// The greatest target that a read waits for.
    pub fn greatest(&self) -> Option<u32>
        ensures { result ≡ greatest self.now.probes }
    {
        self.reads.greatest()
    }
}

#[cfg(test)]
mod tests {
    use super::*;
    use std::test::Fail;

    /// The batches [0, 2) and [2, 5), which two shards and two followers answer for.
    fn two_batches(alloc: Global) -> Result<Binder, AllocError>
        ensures { IfOk result (λ made. (made.shards ≡ 2) × (made.followers ≡ 2)) }
    {
        let mut binder = Binder::new(alloc, 2, 2)?;
        binder.begin(0, 2);
        binder.begin(2, 3);
        Ok(binder)
    }

    /// What the answer of this shard or follower leads to.
    fn answer(binder: &mut Binder, placing: bool, node: u32, upto: u32) -> Progress
        requires { (binder.old.shards ≡ 2) × (binder.old.followers ≡ 2) }
        ensures { (binder.new.shards ≡ 2) × (binder.new.followers ≡ 2) }
    {
        let node = node.min(1);
        if placing {
            return binder.placed(node, upto);
        }
        binder.ordered(node, upto)
    }

    /// After each answer, placed or ordered, by which shard or follower and up to where: what it leads
    /// to, and where the batch begins that is finished then. The second batch's answers come before
    /// the first one's, and some come twice.
    #[test]
    fn answers_crosswise(rt: HostRuntime) -> Result<(), Fail> {
        let rows = [
            (true, 1, 5, Progress::Waiting, None),
            (true, 0, 5, Progress::Waiting, None),
            (true, 0, 2, Progress::Waiting, None),
            (true, 0, 2, Progress::Waiting, None),
            (true, 1, 3, Progress::Ignored, None),
            (false, 0, 2, Progress::Ignored, None),
            (true, 1, 2, Progress::Passed(2), None),
            (true, 1, 2, Progress::Ignored, None),
            (false, 0, 5, Progress::Waiting, None),
            (false, 1, 5, Progress::Waiting, None),
            (false, 0, 2, Progress::Waiting, None),
            (false, 0, 2, Progress::Waiting, None),
            (false, 1, 2, Progress::Waiting, Some(0)),
            (false, 1, 2, Progress::Ignored, Some(2)),
            (false, 0, 5, Progress::Ignored, None),
        ];
        let mut binder = two_batches(rt.alloc())?;
        for (placing, node, upto, progress, finished) in rows {
            assert_eq!(rt; answer(&mut binder, placing, node, upto), progress);
            let from = binder.finish().map(|batch| batch.from);
            assert_eq!(rt; from, finished);
        }
        Ok(())
    }

    #[test]
    fn four_batches(rt: HostRuntime) -> Result<(), Fail> {
        let mut binder = Binder::new(rt.alloc(), 1, 0)?;
        binder.begin(7, 64);
        binder.begin(71, 1);
        binder.begin(72, 2);
        binder.begin(74, 3);
        assert_eq!(rt; binder.flight(), 4);
        let last = Batch {
            from: 74,
            count: 3,
            ordering: false,
        };
        assert_eq!(rt; binder.batch(3), last);
        assert!(rt; binder.lacks_place(3, 0));
        Ok(())
    }

    /// Reads by client, number and target, and whether each is kept.
    #[test]
    fn reads_wait(rt: HostRuntime) -> Result<(), Fail> {
        let rows = [
            (7u8, 1, 10, true),
            (3, 1, 4, true),
            (7, 2, 6, true),
            (7, 1, 12, false),
            (3, 1, 9, false),
            (255, 5, 20, true),
        ];
        let mut binder = Binder::new(rt.alloc(), 1, 1)?;
        for (client, read, target, kept) in rows {
            assert_eq!(rt; binder.probe(u32::from(client), read, target), kept);
        }
        assert_eq!(rt; binder.greatest(), Some(20));
        let ready = [
            (6, Some((7, 2, 6))),
            (6, Some((3, 1, 4))),
            (6, None),
            (20, Some((255, 5, 20))),
            (20, None),
        ];
        for (bound, told) in ready {
            let probe = binder
                .ready(bound)
                .map(|probe| (probe.client, probe.read, probe.target));
            assert_eq!(rt; probe, told);
        }
        assert!(rt; !binder.waiting());
        Ok(())
    }
}
