//! FORCE: batches begin while there is room and a read waits for what is behind them.

ghost use Rattle.std.specs.Prelude.{◌≡◌, ℕ, ◌^◌, ◌<◌, ◌≤◌, length, nat_lt};
ghost use Rattle.lazy_rules.specs.Flight.{waits_above};
ghost use Rattle.seq_node.specs.Beginning.{pending_end};
ghost use Rattle.seq_node.specs.Leaving.{room_once_left};

use crate::SeqNode;
use lazy_rules::FLIGHT_LIMIT;

impl SeqNode {
    /// For how many batches there is room once so many have left; for none where none has.
    pub(crate) fn room_once_left(&self, left: u32) -> u32
        requires { left ≤ length self.now.flight }
        ensures { result ≡ room_once_left left (length self.now.flight) }
    {
        if left == 0 {
            return 0;
        }
        FLIGHT_LIMIT - (self.binder.flight() - left)
    }

    /// Batches begin below this position, for the reads that wait.
    pub(crate) fn forced_limit(&self) -> u32
        requires { pending_end self.now < 2 ^ 32 }
        ensures within { result ≤ pending_end self.now }
        ensures waits { (p : ℕ) → p < pending_end self.now → waits_above self.now.probes p ≡ nat_lt p result }
    {
        let end = self.pending_end();
        match self.binder.greatest() {
            Some(target) => target.min(end),
            None => 0,
        }
    }
}
