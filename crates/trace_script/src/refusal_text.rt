//! How refusals are printed.

ghost use Rattle.std.specs.Prelude.{◌≡◌, IfOk, string_bytes};
ghost use Rattle.trace_script.specs.RefusalTexts.{post_reason, begin_reason, trim_reason, suspect_reason, reason, refused_text, no_node_text};

use crate::NodeWord;
use crate::event_text::text_of;
use crate::names::{node_name, word_text};
use lazy_msgs::{BeginRefused, EventRefused, PostRefused, SuspectRefused, TrimRefused};
use rec_id::Text;
use std::alloc::{AllocError, Global};

fn post_reason(alloc: Global, refused: PostRefused) -> Result<String, AllocError>
    ensures { IfOk result (λ text. string_bytes text ≡ post_reason refused) }
{
    match refused {
        PostRefused::TooLong => String::from_str(alloc, "too long"),
        PostRefused::NumbersSpent => String::from_str(alloc, "numbers spent"),
        PostRefused::WindowFull(low) => format!(in alloc; "window full at {low}"),
        PostRefused::Over => String::from_str(alloc, "over"),
        PostRefused::Memory => String::from_str(alloc, "memory"),
    }
}

fn begin_reason(alloc: Global, refused: BeginRefused) -> Result<String, AllocError>
    ensures { IfOk result (λ text. string_bytes text ≡ begin_reason refused) }
{
    match refused {
        BeginRefused::Outstanding(read) => format!(in alloc; "read {read} outstanding"),
        BeginRefused::Backward => String::from_str(alloc, "backward"),
        BeginRefused::Wide => String::from_str(alloc, "wide"),
        BeginRefused::Over => String::from_str(alloc, "over"),
        BeginRefused::Memory => String::from_str(alloc, "memory"),
    }
}

fn trim_reason(alloc: Global, refused: TrimRefused) -> Result<String, AllocError>
    ensures { IfOk result (λ text. string_bytes text ≡ trim_reason refused) }
{
    match refused {
        TrimRefused::Outstanding(read) => format!(in alloc; "read {read} outstanding"),
        TrimRefused::Ahead(reach) => format!(in alloc; "ahead, reach {reach}"),
        TrimRefused::Over => String::from_str(alloc, "over"),
        TrimRefused::Memory => String::from_str(alloc, "memory"),
    }
}

fn suspect_reason(alloc: Global, refused: SuspectRefused) -> Result<String, AllocError>
    ensures { IfOk result (λ text. string_bytes text ≡ suspect_reason refused) }
{
    match refused {
        SuspectRefused::NotInView => String::from_str(alloc, "not in view"),
        SuspectRefused::LastSeq => String::from_str(alloc, "last sequencing replica"),
        SuspectRefused::LastOfShard(shard) => { format!(in alloc; "last replica of shard {shard}") }
        SuspectRefused::ViewsSpent => String::from_str(alloc, "views spent"),
        SuspectRefused::Over => String::from_str(alloc, "over"),
        SuspectRefused::Memory => String::from_str(alloc, "memory"),
    }
}

/// Why an event was refused. A spent world and want of memory end a trace, and are printed by nobody.
fn reason(alloc: Global, refused: EventRefused) -> Result<String, AllocError>
    ensures { IfOk result (λ text. string_bytes text ≡ reason refused) }
{
    match refused {
        EventRefused::NoNode(node) => {
            let name = node_name(alloc, node)?;
            format!(in alloc; "no node {name}")
        }
        EventRefused::NoMessage(message) => format!(in alloc; "no message {message}"),
        EventRefused::IsClaim(message) => format!(in alloc; "claim {message}"),
        EventRefused::NotClaim(message) => format!(in alloc; "not a claim {message}"),
        EventRefused::Crashed(node) => {
            let name = node_name(alloc, node)?;
            format!(in alloc; "{name} crashed")
        }
        EventRefused::NoTrim => String::from_str(alloc, "no trim"),
        EventRefused::Post(refused) => post_reason(alloc, refused),
        EventRefused::Begin(refused) => begin_reason(alloc, refused),
        EventRefused::Suspect(refused) => suspect_reason(alloc, refused),
        EventRefused::Trim(refused) => trim_reason(alloc, refused),
        EventRefused::Backward => String::from_str(alloc, "backward"),
        EventRefused::Wide => String::from_str(alloc, "wide"),
        EventRefused::NotYet(stable) => format!(in alloc; "not yet, stable {stable}"),
        EventRefused::Spent => String::from_str(alloc, "spent"),
        EventRefused::Memory => String::from_str(alloc, "memory"),
    }
}

/// What a refused event is printed as.
pub fn refused_text(alloc: Global, refused: EventRefused) -> Result<Text, AllocError>
    ensures { IfOk result (λ text. text ≡ refused_text refused) }
{
    let reason = reason(alloc, refused)?;
    Ok(text_of(format!(in alloc; "refused: {reason}")?))
}

/// What the refusal of a word is printed as whose number no node has.
pub fn no_node_text(alloc: Global, word: &NodeWord) -> Result<Text, AllocError>
    ensures { IfOk result (λ text. text ≡ no_node_text word.now) }
{
    let name = word_text(alloc, word)?;
    Ok(text_of(format!(in alloc; "refused: no node {name}")?))
}
