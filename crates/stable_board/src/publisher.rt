//! A replica's end of the board.

ghost use Rattle.std.specs.Prelude.{◌≡◌, ◌≢◌, ◌<◌, ◌≤◌, ◌^◌, length};
ghost use Rattle.rec_id.specs.Identity.{packed};
ghost use Rattle.stable_board.specs.Claiming.{HasVerified, Claims};
ghost use Rattle.stable_board.specs.Ends.{with_did};
ghost use Rattle.stable_board.specs.Steps.{with_raised};
ghost use Rattle.stable_board.specs.Told.{IsFound, after_set};

use crate::claim::{BoardClaim, pack};
use crate::plays::{Raise, Set};
use crate::rule::{BoardSeat, SharedBoard};
use plain_lists::Sequence;
use rec_id::RecordId;
use shard_store::ShardStore;
use std::marker::Model;
use std::sync::Arc;

/// What came of a claim.
#[derive(Clone, Copy, Debug, PartialEq, Eq)]
pub enum Claimed {
    /// All stable places have their words, and word 0 is at least the claim.
    Done,
    /// The word of this place had another identity than the order. Word 0 wasn't raised.
    Stopped { place: u32, own: u64, found: u64 },
}

/// What a replica publishes on a board. Contracts see its number and all that it did.
#[derive(Drop)]
pub struct Publisher {
    pub(crate) table: Arc<SharedBoard>,
    pub(crate) seat: BoardSeat,
    /// The places below it have the words of the replica's order.
    pub(crate) verified: u32,
}

/// The publishers of a board, in their order.
pub type PublisherList = Sequence<Publisher>;

impl Model for Publisher {
    ghost use Rattle.std.specs.Arc.{arc_value};
    ghost use Rattle.stable_board.specs.Ends.{PublisherEnd, publisher_of, IsPublisher};

    ghost Value = { PublisherEnd };

    ghost view = { λ p. publisher_of p.seat.table_id p.seat.me.0 };

    ghost invariant = { λ p. IsPublisher (arc_value p.table).shared.table_id p.seat p.verified };
}

impl Publisher {
    /// Sets the words of the store's stable places that this publisher hasn't verified, and then
    /// raises word 0 to the store's stable number, the time and the replica. `Stopped` is answered
    /// exactly where a word has another identity.
    pub fn claim(&mut self, store: &ShardStore, time: u64, replica: u32) -> Claimed
        requires time { time < 2 ^ 40 }
        requires room { store.now.stable ≤ 65536 }
        requires replica { replica ≡ self.old.replica }
        requires verified { HasVerified self.old.did store.now }
        ensures outcome { Claims self.old self.new store.now time result }
        ensures verified { HasVerified self.new.did store.now }
        ensures same { (self.new.board ≡ self.old.board) × (self.new.replica ≡ self.old.replica) }
    {
        let stable = store.stable();
        let places = store.len();
        prove!(stable <= places);
        while self.verified < stable {
            let place = self.verified;
            let id = store.cell(place).id;
            let own = id.pack();
            let found = self.set(id);
            if found != 0 && found != own {
                return Claimed::Stopped { place, own, found };
            }
        }
        self.raise(BoardClaim {
            stable,
            time,
            replica,
        });
        Claimed::Done
    }

    /// Sets the word of the next place from 0, and answers what it was.
    fn set(&mut self, id: RecordId) -> u64
        requires { length self.old.did.verified < 65536 }
        ensures did { self.new ≡ with_did self.old (after_set (length self.old.did.verified) (packed id) result self.old.did) }
        ensures found { result ≢ 0 → IsFound self.old.did.stops (length self.old.did.verified) result }
    {
        let own = id.pack();
        let word = self.verified as usize + 1;
        let found = self
            .table
            .shared
            .compare_exchange::<Set>(&mut self.seat, word, 0, own);
        if found == 0 || found == own {
            self.verified += 1;
        }
        found
    }

    /// Raises word 0 to at least this claim.
    fn raise(&mut self, claim: BoardClaim)
        requires limits { (claim.stable ≤ 65536) × (claim.time < 2 ^ 40) }
        requires own { claim.replica ≡ self.old.replica }
        requires verified { claim.stable ≤ length self.old.did.verified }
        ensures { self.new ≡ with_did self.old (with_raised self.old.did (claim.stable, claim.time)) }
    {
        self.table
            .shared
            .fetch_max::<Raise>(&mut self.seat, 0, pack(claim));
    }
}
