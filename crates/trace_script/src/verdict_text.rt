//! How what the law says of the lines of holders is printed.

ghost use Rattle.std.specs.Prelude.{◌≡◌, IfOk};
ghost use Rattle.trace_script.specs.VerdictTexts.{letter, lost_verdict_text, verdict_text};

use crate::event_text::text_of;
use crate::names::holder_name;
use log_law::Verdict;
use rec_id::Text;
use std::alloc::{AllocError, Global};

/// The letter of a clause of the law, `a` for the first of the nine.
fn letter(clause: u8) -> char
    ensures { result ≡ letter clause }
{
    match clause {
        1 => 'a',
        2 => 'b',
        3 => 'c',
        4 => 'd',
        5 => 'e',
        6 => 'f',
        7 => 'g',
        8 => 'h',
        9 => 'i',
        _ => '?',
    }
}

/// What the law says of the line of a holder.
pub fn verdict_text(alloc: Global, holder: u32, verdict: Verdict) -> Result<Text, AllocError>
    ensures { IfOk result (λ text. text ≡ verdict_text holder verdict) }
{
    let name = holder_name(alloc, holder)?;
    match verdict {
        Verdict::Lawful => Ok(text_of(format!(in alloc; "law {name}: lawful")?)),
        Verdict::Broken {
            clause,
            first,
            second,
        } => {
            let letter = letter(clause);
            Ok(text_of(format!(in alloc; "law {name}: broken {letter} {first} {second}")?))
        }
    }
}

/// What is printed for a holder whose line is lost, since nobody of `shard` is left.
pub fn lost_verdict_text(alloc: Global, holder: u32, shard: u32) -> Result<Text, AllocError>
    ensures { IfOk result (λ text. text ≡ lost_verdict_text holder shard) }
{
    let name = holder_name(alloc, holder)?;
    Ok(text_of(format!(in alloc; "law {name}: lost shard {shard}")?))
}
