//! What meets no rule, whatever the state: lists and windows of another shape.

ghost use Rattle.std.specs.Prelude.{◌≡◌, ◌^◌, nat_lt};
ghost use Rattle.std.specs.List.{list_all};
ghost use Rattle.rec_id.specs.Marks.{bit_of};
ghost use Rattle.lazy_rules.specs.Door.{has_client, has_none_below_one, is_config, is_marks, is_node, is_node_list, is_window};

use rec_id::{IdList, Marks, WindowList};
use view_config::{Config, NodeList, Shape};

/// The identities are of clients that the shape has.
pub(crate) fn has_clients(shape: &Shape, ids: &IdList) -> bool
    ensures { result ≡ list_all (has_client shape.now) ids.now }
{
    let clients = shape.clients;
    ids.as_slice().iter().all(|id| id.client() < clients)
}

/// The shape has this node.
fn is_node(shape: &Shape, node: u32) -> bool
    ensures { result ≡ is_node shape.now node }
{
    shape.node(node).is_some()
}

/// All of these nodes are of the shape.
fn are_nodes(shape: &Shape, nodes: &[u32]) -> bool
    ensures { result ≡ list_all (is_node shape.now) nodes.now }
{
    nodes.iter().all(|node| is_node(shape, *node))
}

/// Some nodes, all of the shape.
fn is_node_list(shape: &Shape, nodes: &NodeList) -> bool
    ensures { result ≡ is_node_list shape.now nodes.now }
{
    if nodes.len() == 0 {
        return false;
    }
    are_nodes(shape, nodes.as_slice())
}

/// Each of these is some nodes, all of the shape.
fn are_node_lists(shape: &Shape, shards: &[NodeList]) -> bool
    ensures { result ≡ list_all (is_node_list shape.now) shards.now }
{
    shards.iter().all(|nodes| is_node_list(shape, nodes))
}

/// The configuration has some sequencing replicas, and some replicas for each shard of the shape.
pub(crate) fn is_config(shape: &Shape, config: &Config) -> bool
    ensures { result ≡ is_config shape.now config.now }
{
    if !is_node_list(shape, &config.seq) {
        return false;
    }
    if config.shards.len() != shape.shards as usize {
        return false;
    }
    are_node_lists(shape, config.shards.as_slice())
}

/// Bit `i` of the words, the least significant of the first word being bit 0.
fn bit(words: &[u64], i: usize) -> bool
    ensures { result ≡ bit_of words.now i }
{
    match words.get(i / 64) {
        Some(word) => (*word >> (i % 64)) % 2 == 1,
        None => false,
    }
}

/// Words are numbers of 64 bits: what the rules ask of them is true of all that code can hold.
fn are_words(words: &[u64]) -> bool
    ensures { result ≡ list_all (λ word. nat_lt word (2 ^ 64)) words.now }
{
    let _ = words;
    true
}

/// No bit stands for a number below 1: each that would, stands from bit `top` on.
fn has_none_below_one(marks: &Marks, window: u32) -> bool
    ensures { result ≡ has_none_below_one marks.now 0 window }
{
    let mut i = marks.top.min(window);
    while i < window {
        if bit(marks.bits.as_slice(), i as usize) {
            return false;
        }
        i += 1;
    }
    true
}

/// The marks are in their form.
fn is_marks(shape: &Shape, marks: &Marks) -> bool
    ensures { result ≡ is_marks shape.now marks.now }
{
    let window = shape.edition.window();
    if marks.bits.len() != (window / 64) as usize {
        return false;
    }
    if !are_words(marks.bits.as_slice()) {
        return false;
    }
    if !has_none_below_one(marks, window) {
        return false;
    }
    marks.top == 0 || bit(marks.bits.as_slice(), 0)
}

/// All of these marks are in their form.
fn are_marks(shape: &Shape, all: &[Marks]) -> bool
    ensures { result ≡ list_all (is_marks shape.now) all.now }
{
    all.iter().all(|marks| is_marks(shape, marks))
}

/// The window has the marks of each client.
pub(crate) fn is_window(shape: &Shape, window: &WindowList) -> bool
    ensures { result ≡ is_window shape.now window.now }
{
    if window.len() != shape.clients as usize {
        return false;
    }
    are_marks(shape, window.as_slice())
}
