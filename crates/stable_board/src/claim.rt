//! A claim as one word: the stable number, the time and the replica that claims, in this order of weight.

ghost use Rattle.std.specs.Prelude.{◌≡◌, ◌≤◌, ◌<◌, ◌^◌};
ghost use Rattle.stable_board.specs.Claims.{packed_claim, claim_in};

/// Word 0 of a board: a replica claims that so many places of its order are final. Its time is that of
/// the step that claimed. All three are 0 where nothing was claimed.
#[derive(Clone, Copy, Debug, PartialEq, Eq)]
pub struct BoardClaim {
    pub stable: u32,
    pub time: u64,
    pub replica: u32,
}

/// The word of a claim. A claim of more places packs to a greater word.
pub(crate) fn pack(claim: BoardClaim) -> u64
    requires { (claim.stable ≤ 65536) × (claim.time < 2 ^ 40) × (claim.replica < 2 ^ 5) }
    ensures { result ≡ packed_claim claim }
{
    u64::from(claim.stable) * (1 << 45) + claim.time * (1 << 5) + u64::from(claim.replica)
}

/// The claim that a word is.
pub(crate) fn unpack(word: u64) -> BoardClaim
    ensures { result ≡ claim_in word }
{
    BoardClaim {
        stable: (word / (1 << 45)) as u32,
        time: word / (1 << 5) % (1 << 40),
        replica: (word % (1 << 5)) as u32,
    }
}
