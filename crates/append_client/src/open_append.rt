//! One append that isn't finished.

ghost use Rattle.std.specs.Prelude.{◌≡◌, ◌≤◌, [], IfOk, OnOk, OnErr, Some, None};
ghost use Rattle.std.specs.Option.{option_map};
ghost use Rattle.lazy_rules.specs.ClientRules.{noted, unacknowledged};
ghost use Rattle.lazy_rules.specs.ClientState.{OpenAppend as Unfinished};

use crate::nodes::has_node;
use plain_lists::Sequence;
use rec_id::Bytes;
use std::alloc::{AllocError, Global};
use std::marker::Model;
use view_config::NodeList;

/// An append that isn't finished: its number, its data, and the nodes that acknowledged it in the
/// client's view.
#[derive(Drop)]
pub(crate) struct OpenAppend {
    pub(crate) number: u32,
    pub(crate) bytes: Bytes,
    pub(crate) acked: NodeList,
}

impl Model for OpenAppend {
    ghost use Rattle.std.specs.Prelude.{◌≤◌};
    ghost use Rattle.lazy_rules.specs.ClientState.{OpenAppend as Unfinished};

    ghost Value = { Unfinished };

    ghost view = { λ a. record { number = a.number; bytes = a.bytes; acked = a.acked } };

    ghost invariant = { λ a. 1 ≤ a.number };
}

impl OpenAppend {
    /// An append that nobody acknowledged.
    pub(crate) fn new(alloc: Global, number: u32, bytes: Bytes) -> OpenAppend
        requires { 1 ≤ number }
        ensures { result ≡ record { number = number; bytes = bytes; acked = [] } }
    {
        OpenAppend {
            number,
            bytes,
            acked: Sequence::new(alloc),
        }
    }

    pub(crate) fn number(&self) -> u32
        ensures number { result ≡ self.now.number }
        ensures least { 1 ≤ result }
    {
        self.number
    }

    /// An equal append.
    pub(crate) fn copy(&self) -> Result<OpenAppend, AllocError>
        ensures { IfOk result (λ made. made ≡ self.now) }
    {
        Ok(OpenAppend {
            number: self.number,
            bytes: self.bytes.clone()?,
            acked: self.acked.copy()?,
        })
    }

    /// The append with no acknowledgement.
    pub(crate) fn unacknowledged(&self, alloc: Global) -> Result<OpenAppend, AllocError>
        ensures { IfOk result (λ made. made ≡ unacknowledged self.now) }
    {
        Ok(OpenAppend {
            number: self.number,
            bytes: self.bytes.clone()?,
            acked: Sequence::new(alloc),
        })
    }

    /// One node more acknowledged the append; each node is kept once.
    fn note(&mut self, node: u32) -> Result<(), AllocError>
        ensures ok { OnOk result (self.new ≡ noted self.old node) }
        ensures err { OnErr result (self.new ≡ self.old) }
    {
        if has_node(self.acked.as_slice(), node) {
            return Ok(());
        }
        self.acked.push(node)
    }
}

/// An equal slot.
pub(crate) fn copy_slot(slot: &Option<OpenAppend>) -> Result<Option<OpenAppend>, AllocError>
    ensures { IfOk result (λ made. made ≡ slot.now) }
{
    match slot {
        Some(append) => Ok(Some(append.copy()?)),
        None => Ok(None),
    }
}

/// The slot with no acknowledgement of its append.
pub(crate) fn clear_slot(
    alloc: Global,
    slot: &Option<OpenAppend>,
) -> Result<Option<OpenAppend>, AllocError>
    ensures { IfOk result (λ made. made ≡ option_map unacknowledged slot.now) }
{
    match slot {
        Some(append) => Ok(Some(append.unacknowledged(alloc)?)),
        None => Ok(None),
    }
}

/// One node more acknowledged the append of the slot.
pub(crate) fn note_slot(slot: &mut Option<OpenAppend>, node: u32) -> Result<(), AllocError>
    ensures none { slot.old ≡ None → slot.new ≡ None }
    ensures some { (a : Unfinished) → slot.old ≡ Some a → OnOk result (slot.new ≡ Some (noted a node)) }
    ensures err { OnErr result (slot.new ≡ slot.old) }
{
    match slot {
        Some(append) => append.note(node),
        None => Ok(()),
    }
}
