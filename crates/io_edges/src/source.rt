//! Where bytes come from.

ghost use Rattle.std.specs.Prelude.{◌≡◌, ◌<◌, ◌≤◌, ℕ, List, Option, length, take, IfOk, OnOk, OnErr};
ghost use Rattle.std.specs.Io.KnownBytes.{prepend_known, IsAtEnd};
ghost use Rattle.io_edges.specs.Faults.{Rose};

/// A read failed. Why isn't told.
#[derive(Clone, Copy, Debug, PartialEq, Eq)]
pub struct Failed;

/// What can be read.
pub trait Source {
    // The bytes left to read, where the source tells them. One that tells them always does.
    ghost left: { Self → Option (List ℕ) };

    // How many faults the source has had. It never falls.
    ghost faults: { Self → ℕ };

    /// Reads bytes into the front of `buf`, and says how many. It reads none into a buffer that has
    /// room only at the end of the input. A read that failed took no bytes.
    fn read(&mut self, buf: &mut [u8]) -> Result<usize, Failed>
        ensures within { IfOk result (λ count. count ≤ length buf.new) }
        ensures bytes { IfOk result (λ count.
            left self.old ≡ prepend_known (take count buf.new) (left self.new)) }
        ensures end { IfOk result (λ count. count ≡ 0 → 0 < length buf.new → IsAtEnd (left self.new)) }
        ensures unread { OnErr result (left self.new ≡ left self.old) }

        ensures failed { OnErr result (Rose (faults self.old) (faults self.new)) }
        ensures faultless { OnOk result (faults self.new ≡ faults self.old) }
        ensures grows { faults self.old ≤ faults self.new };
}
