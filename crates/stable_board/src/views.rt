//! What the seats of a board know. No value of these types is made: they exist in proofs alone.

use crate::claim::BoardClaim;
use rec_id::RecordId;
use std::collections::LinkedList;

/// What a publisher did: the identities of the first places, which it found or set; the stable numbers
/// and times that it raised word 0 to; the places where it met another identity, with that identity.
pub struct Published {
    pub verified: LinkedList<RecordId>,
    pub raised: LinkedList<(u32, u64)>,
    pub stops: LinkedList<(u32, RecordId)>,
}

/// What a peeker saw: word 0, in the order of its peeks, and identities at places.
pub struct Peeked {
    pub claims: LinkedList<BoardClaim>,
    pub notes: LinkedList<(u32, RecordId)>,
}

/// How many ends of each kind were made, and what those did and saw that have ended, by their numbers.
pub struct Register {
    pub publishers: u32,
    pub peekers: u32,
    pub published: LinkedList<Published>,
    pub peeked: LinkedList<Peeked>,
}

/// What a seat knows. A seat that was joined into the keeper's is spent.
pub enum View {
    Keeps(Register),
    Publishes(u32, Published),
    Peeks(u32, Peeked),
    Spent,
}
