//! What becomes of a frame, by the number that was drawn for it.

ghost use Rattle.std.specs.Prelude.{◌≡◌, ◌≤◌};
ghost use Rattle.chaos_net.specs.Fates.{fate_of};

#[derive(Clone, Copy)]
pub enum Fate {
    Dropped,
    /// Handed out, and a copy is held.
    Repeated,
    /// Held.
    Delayed,
    Passed,
}

/// The fate that `number` draws at a loss of `loss` in a thousand: three as wide bands, and the rest.
pub(crate) fn fate_of(loss: u32, number: u32) -> Fate
    requires { loss ≤ 300 }
    ensures { result ≡ fate_of loss number }
{
    if number < loss {
        Fate::Dropped
    } else if number < 2 * loss {
        Fate::Repeated
    } else if number < 3 * loss {
        Fate::Delayed
    } else {
        Fate::Passed
    }
}
