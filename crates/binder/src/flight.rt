//! What an answer does to the batches of a flight, in their order.

ghost use Rattle.std.specs.Prelude.{◌≡◌, ℕ, ◌+◌, ◌^◌, ◌<◌, ◌≤◌, length};
ghost use Rattle.lazy_rules.specs.Flight.{has_placing, has_ordering, with_place, with_order, passed, passing};
ghost use Rattle.binder.specs.Binding.{leaving, placed_flight, placed_progress, progress_of, ordered_flight, ordered_progress};
ghost use Rattle.binder.specs.Held.{AllFor, Each, batches, rooms};

use crate::batch::Progress;
use crate::slot::Slot;

/// Notes the answer of a shard at the batch that is being placed and ends at `upto`, and says whether
/// there is one.
fn note_places(flight: &mut [Slot], shard: u32, upto: u32) -> bool
    requires { Each (λ held. shard < held.shards) flight.old }
    ensures noted { batches flight.new ≡ with_place (batches flight.old) shard upto }
    ensures here { result ≡ has_placing (batches flight.old) upto }
    ensures room { rooms flight.new ≡ rooms flight.old }
{
    match flight.split_first_mut() {
        Some((first, others)) => {
            let here = first.note_place(shard, upto);
            note_places(others, shard, upto) || here
        }
        None => false,
    }
}

/// Notes the answer of a follower at the batch that is ordered and ends at `upto`, and says whether
/// there is one.
fn note_orders(flight: &mut [Slot], follower: u32, upto: u32) -> bool
    requires { Each (λ held. follower < held.followers) flight.old }
    ensures noted { batches flight.new ≡ with_order (batches flight.old) follower upto }
    ensures here { result ≡ has_ordering (batches flight.old) upto }
    ensures room { rooms flight.new ≡ rooms flight.old }
{
    match flight.split_first_mut() {
        Some((first, others)) => {
            let here = first.note_order(follower, upto);
            note_orders(others, follower, upto) || here
        }
        None => false,
    }
}

/// Batches that every shard answered for are to be ordered, up to the first that isn't placed yet.
/// Says how many they are.
fn pass(flight: &mut [Slot]) -> u32
    requires { length flight.old < 2 ^ 32 }
    ensures passed { (shards : ℕ) → Each (λ held. held.shards ≡ shards) flight.old → batches flight.new ≡ passed shards (batches flight.old) }
    ensures count { (shards : ℕ) → Each (λ held. held.shards ≡ shards) flight.old → result ≡ length (passing shards (batches flight.old)) }
    ensures room { rooms flight.new ≡ rooms flight.old }
    ensures few { result ≤ length flight.old }
{
    match flight.split_first_mut() {
        Some((first, others)) => {
            if first.is_ordering() {
                return pass(others);
            }
            if !first.is_placed() {
                return 0;
            }
            first.order();
            pass(others) + 1
        }
        None => 0,
    }
}

fn progress_of(count: u32) -> Progress
    ensures { result ≡ progress_of count }
{
    match count {
        0 => Progress::Waiting,
        _ => Progress::Passed(count),
    }
}

/// Notes the answer of a shard, and lets the batches pass that can.
pub(crate) fn place(flight: &mut [Slot], shard: u32, upto: u32) -> Progress
    requires room { Each (λ held. shard < held.shards) flight.old }
    requires few { length flight.old < 2 ^ 32 }
    ensures next { (shards : ℕ) → Each (λ held. held.shards ≡ shards) flight.old → batches flight.new ≡ placed_flight shards (batches flight.old) shard upto }
    ensures progress { (shards : ℕ) → Each (λ held. held.shards ≡ shards) flight.old → result ≡ placed_progress shards (batches flight.old) shard upto }
    ensures room { rooms flight.new ≡ rooms flight.old }
{
    if !note_places(flight, shard, upto) {
        return Progress::Ignored;
    }
    progress_of(pass(flight))
}

/// Notes the answer of a follower.
pub(crate) fn order(flight: &mut [Slot], follower: u32, upto: u32) -> Progress
    requires { Each (λ held. follower < held.followers) flight.old }
    ensures next { batches flight.new ≡ ordered_flight (batches flight.old) follower upto }
    ensures progress { result ≡ ordered_progress (batches flight.old) upto }
    ensures room { rooms flight.new ≡ rooms flight.old }
{
    if !note_orders(flight, follower, upto) {
        return Progress::Ignored;
    }
    Progress::Waiting
}

/// A batch is being placed that ends at `upto`.
pub(crate) fn has_placing(flight: &[Slot], upto: u32) -> bool
    ensures { result ≡ has_placing (batches flight.now) upto }
{
    match flight.split_first() {
        Some((first, others)) => first.is_placing_to(upto) || has_placing(others, upto),
        None => false,
    }
}

/// A batch is ordered that ends at `upto`.
pub(crate) fn has_ordering(flight: &[Slot], upto: u32) -> bool
    ensures { result ≡ has_ordering (batches flight.now) upto }
{
    match flight.split_first() {
        Some((first, others)) => first.is_ordering_to(upto) || has_ordering(others, upto),
        None => false,
    }
}

/// How many batches leave once the follower's answer is noted.
pub(crate) fn leaving_ordered(flight: &[Slot], follower: u32, upto: u32) -> u32
    requires few { length flight.now < 2 ^ 32 }
    requires room { Each (λ held. follower < held.followers) flight.now }
    ensures leaving { (shards followers : ℕ) → AllFor shards followers flight.now → result ≡ leaving followers (with_order (batches flight.now) follower upto) }
    ensures few { result ≤ length flight.now }
{
    match flight.split_first() {
        Some((first, others)) => {
            if first.is_finished_with(follower, upto) {
                return leaving_ordered(others, follower, upto) + 1;
            }
            0
        }
        None => 0,
    }
}

/// How many batches leave once the shard's answer is noted.
pub(crate) fn leaving_placed(flight: &[Slot], shard: u32, upto: u32) -> u32
    requires few { length flight.now < 2 ^ 32 }
    requires room { Each (λ held. shard < held.shards) flight.now }
    ensures leaving { (shards followers : ℕ) → AllFor shards followers flight.now → result ≡ leaving followers (passed shards (with_place (batches flight.now) shard upto)) }
    ensures few { result ≤ length flight.now }
{
    match flight.split_first() {
        Some((first, others)) => {
            if first.is_finished_once_placed(shard, upto) {
                return leaving_placed(others, shard, upto) + 1;
            }
            0
        }
        None => 0,
    }
}
