//! How much an input weighs.

ghost use Rattle.std.specs.Prelude.{◌≡◌};
ghost use Rattle.diary_merge.specs.Weights.{input_weight};

use crate::limits::IDENTITY_WEIGHT;
use lazy_msgs::{Input, weight};

/// A receipt weighs what its envelope does, a post its bytes, a peek 16 for each identity, and any other input nothing.
pub fn input_weight(input: &Input) -> u64
    ensures { result ≡ input_weight input.now }
{
    match input {
        Input::Take(envelope) => weight(envelope),
        Input::Post(bytes) => bytes.len() as u64,
        Input::Peek { ids, .. } => (ids.len() as u64).saturating_mul(IDENTITY_WEIGHT),
        Input::Tick
        | Input::Grace
        | Input::Crash
        | Input::Ask(_)
        | Input::Trim(_)
        | Input::Suspect(_) => 0,
    }
}
