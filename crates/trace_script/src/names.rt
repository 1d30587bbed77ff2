//! The names of nodes, and of holders of a line.

ghost use Rattle.std.specs.Prelude.{◌≡◌, IfOk, string_bytes};
ghost use Rattle.trace_script.specs.Names.{word_text, node_name, holder_name};

use crate::NodeWord;
use std::alloc::{AllocError, Global};
use view_config::CONTROLLER;

/// The word as it is written.
pub fn word_text(alloc: Global, word: &NodeWord) -> Result<String, AllocError>
    ensures { IfOk result (λ text. string_bytes text ≡ word_text word.now) }
{
    match word {
        NodeWord::Client(c) => format!(in alloc; "c{c}"),
        NodeWord::Controller => String::from_str(alloc, "k"),
        NodeWord::Seq(i) => format!(in alloc; "s{i}"),
        NodeWord::Shard(i, j) => format!(in alloc; "d{i}.{j}"),
    }
}

/// The name of the node with this number; the number itself where it is no node's.
pub fn node_name(alloc: Global, node: u32) -> Result<String, AllocError>
    ensures { IfOk result (λ text. string_bytes text ≡ node_name node) }
{
    match NodeWord::of(node) {
        Some(word) => word_text(alloc, &word),
        None => format!(in alloc; "{node}"),
    }
}

/// A holder by its name; the taken state stands under the controller's number.
pub fn holder_name(alloc: Global, holder: u32) -> Result<String, AllocError>
    ensures { IfOk result (λ text. string_bytes text ≡ holder_name holder) }
{
    if holder == CONTROLLER {
        String::from_str(alloc, "taken")
    } else {
        node_name(alloc, holder)
    }
}
