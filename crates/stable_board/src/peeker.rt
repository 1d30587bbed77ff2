//! A reader's end of the board.

ghost use Rattle.std.specs.Prelude.{◌≡◌, ◌<◌, ◌≤◌, ◌^◌};
ghost use Rattle.list_facts.specs.Lists.{Each};
ghost use Rattle.stable_board.specs.Claims.{packed_claim};
ghost use Rattle.stable_board.specs.Ends.{with_saw, last_claim};
ghost use Rattle.stable_board.specs.Steps.{with_claim, with_note};
ghost use Rattle.stable_board.specs.Told.{Agrees};

use crate::claim::{BoardClaim, unpack};
use crate::plays::{Look, Note};
use crate::rule::{BoardSeat, SharedBoard};
use plain_lists::Sequence;
use rec_id::RecordId;
use std::marker::Model;
use std::sync::Arc;

/// What a reader sees of a board. Contracts see its number and all that it saw.
#[derive(Drop)]
pub struct Peeker {
    pub(crate) table: Arc<SharedBoard>,
    pub(crate) seat: BoardSeat,
}

/// The peekers of a board, in their order.
pub type PeekerList = Sequence<Peeker>;

impl Model for Peeker {
    ghost use Rattle.std.specs.Arc.{arc_value};
    ghost use Rattle.stable_board.specs.Ends.{PeekerEnd, peeker_of, IsPeeker};

    ghost Value = { PeekerEnd };

    ghost view = { λ p. peeker_of p.seat.table_id p.seat.me.0 };

    ghost invariant = { λ p. IsPeeker (arc_value p.table).shared.table_id p.seat };
}

impl Peeker {
    /// Word 0 as it is now: the claim of most places so far, with the latest time where two claimed
    /// as many. Word 0 never falls.
    pub fn peek(&mut self) -> BoardClaim
        ensures saw { self.new ≡ with_saw self.old (with_claim self.old.saw result) }
        ensures last { last_claim self.new.saw.claims ≡ result }
        ensures limits { (result.stable ≤ 65536) × (result.time < 2 ^ 40) × (result.replica < 2 ^ 5) }
        ensures rises { Each (λ claim. packed_claim claim ≤ packed_claim result) self.old.saw.claims }
    {
        let word = self.table.shared.load::<Look>(&mut self.seat, 0);
        unpack(word)
    }

    /// The identity in the word of `place`, which is below the stable number of the last peek. A word
    /// that is set never changes. That the claiming replica has this identity there is known once the
    /// board is closed.
    pub fn entry(&mut self, place: u32) -> RecordId
        requires { place < (last_claim self.old.saw.claims).stable }
        ensures saw { self.new ≡ with_saw self.old (with_note self.old.saw (place, result)) }
        ensures same { Agrees self.old.saw.notes place result }
    {
        let word = self
            .table
            .shared
            .load::<Note>(&mut self.seat, place as usize + 1);
        match RecordId::unpack(word) {
            Some(id) => id,
            None => unreachable!(),
        }
    }
}
