//! Writing a piece to its end.

ghost use Rattle.std.specs.Prelude.{◌≡◌, ◌≤◌, OnOk, IsErrOf};
ghost use Rattle.std.specs.Io.KnownBytes.{append_known};
ghost use Rattle.io_edges.specs.Faults.{Rose};
ghost use Rattle.io_edges.specs.Telling.{Fails, Stops};

use crate::{Sink, SinkFailed};

/// Writes all of `bytes`, by as many writes as it takes. Where one fails, what was written is a
/// front of `bytes`.
pub fn write_all<K: Sink>(sink: &mut K, bytes: &[u8]) -> Result<(), SinkFailed>
    ensures whole { OnOk result (K.written sink.new ≡ append_known (K.written sink.old) bytes.now) }
    // This holds however the call ended.
    ensures front { Stops (K.written sink.old) (K.written sink.new) bytes.now }

    // Where a write failed, not all of it is written.
    ensures fails { IsErrOf result SinkFailed.Failed → Fails (K.written sink.old) (K.written sink.new) bytes.now }

    ensures failed { IsErrOf result SinkFailed.Failed → Rose (K.faults sink.old) (K.faults sink.new) }
    ensures faultless { OnOk result (K.faults sink.new ≡ K.faults sink.old) }
    ensures memory { IsErrOf result SinkFailed.Memory → K.faults sink.new ≡ K.faults sink.old }
    ensures grows { K.faults sink.old ≤ K.faults sink.new }
{
    let mut rest = bytes;
    while !rest.is_empty() {
        let count = sink.write(rest)?;
        rest = &rest[count..];
    }
    Ok(())
}
