//! What a node keeps of its steps: a diary. Nothing is decided here.

ghost use Rattle.std.specs.Prelude.{◌≡◌, IfOk};

use crate::{Input, SendList};
use plain_lists::Sequence;
use std::alloc::AllocError;

/// One step of a node: its Lamport time, what the node took, and what it sent.
#[derive(Drop)]
pub struct DiaryEntry {
    pub time: u64,
    pub input: Input,
    pub sends: SendList,
}

pub type EntryList = Sequence<DiaryEntry>;

/// The steps of one node, in order.
#[derive(Drop)]
pub struct Diary {
    pub node: u32,
    pub entries: EntryList,
}

pub type DiaryList = Sequence<Diary>;
