//! The counts as one line of JSON.

ghost use Rattle.std.specs.Prelude.{◌≡◌, IfOk};
ghost use Rattle.serde_json.specs.View.{view};
ghost use Rattle.load_gen.specs.Summary.{summary_data, summary_text};

use crate::counts::Counts;
use rec_id::Text;
use serde_json::{Value, json};
use std::alloc::{AllocError, Global};

/// The counts as a JSON object, each by its name.
fn summary_object(alloc: Global, counts: &Counts) -> Result<Value, AllocError>
    ensures { IfOk result (λ value. view value ≡ summary_data counts.now) }
{
    json!(in alloc; {
        "acked": counts.acked,
        "answered": counts.answered,
        "events": counts.events,
        "invoked": counts.invoked,
        "lawful": counts.lawful,
        "messages": counts.messages,
        "refused": counts.refused,
        "rejected": counts.rejected,
    })
}

/// The counts as a JSON object without spaces and without a newline. Its keys stand in the order of the alphabet.
pub fn summary(alloc: Global, counts: &Counts) -> Result<Text, AllocError>
    ensures { IfOk result (λ text. text ≡ summary_text counts.now) }
{
    let object = summary_object(alloc, counts)?;
    let text = object.to_string(alloc)?;
    Ok(Text::from_vec(text.into_bytes()))
}
