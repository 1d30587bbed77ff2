//! Where bytes go to.

ghost use Rattle.std.specs.Prelude.{◌≡◌, ◌<◌, ◌≤◌, ℕ, List, Option, length, take, IfOk, OnOk, OnErr, IsErrOf};
ghost use Rattle.std.specs.Io.KnownBytes.{append_known};
ghost use Rattle.io_edges.specs.Faults.{Rose};

use std::alloc::AllocError;

/// Why a write took no bytes.
#[derive(Clone, Copy, Debug, PartialEq, Eq)]
pub enum SinkFailed {
    /// The sink had a fault.
    Failed,
    /// There was no memory for the bytes.
    Memory,
}

impl From<AllocError> for SinkFailed {
    ghost use Rattle.io_edges.specs.declared.sink.SinkFailed.TheVariants.{Memory};

    ghost from_gives = { λ _ e. e ≡ Memory };

    fn from(_error: AllocError) -> SinkFailed {
        SinkFailed::Memory
    }
}

/// What can be written.
pub trait Sink {
    // The bytes written so far, where the sink tells them. One that tells them always does.
    ghost written: { Self → Option (List ℕ) };

    // How many faults the sink has had. It never falls.
    ghost faults: { Self → ℕ };

    /// Writes a front of `bytes`, and says how many bytes it is: at least one, where there are any.
    /// A write that failed wrote none.
    fn write(&mut self, bytes: &[u8]) -> Result<usize, SinkFailed>
        ensures within { IfOk result (λ count. count ≤ length bytes.now) }
        ensures some { 0 < length bytes.now → IfOk result (λ count. 1 ≤ count) }
        ensures bytes { IfOk result (λ count.
            written self.new ≡ append_known (written self.old) (take count bytes.now)) }
        ensures unwritten { OnErr result (written self.new ≡ written self.old) }

        ensures failed { IsErrOf result SinkFailed.Failed → Rose (faults self.old) (faults self.new) }
        ensures faultless { OnOk result (faults self.new ≡ faults self.old) }
        ensures memory { IsErrOf result SinkFailed.Memory → faults self.new ≡ faults self.old }
        ensures grows { faults self.old ≤ faults self.new };
}
