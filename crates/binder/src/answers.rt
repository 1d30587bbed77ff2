//! Which of so many nodes answered.

ghost use Rattle.std.specs.Prelude.{◌≡◌, ◌<◌, [], IfOk};
ghost use Rattle.lazy_rules.specs.Flight.{answered_by, has_all};
ghost use Rattle.lazy_rules.specs.Rows.{has_node};

use std::alloc::{AllocError, Global};
use std::marker::Model;

/// The nodes that answered, of those numbered below `count`, in the order of their answers. There is
/// room for all.
#[derive(Drop)]
pub(crate) struct Answers {
    count: u32,
    given: Vec<u32>,
}

impl Model for Answers {
    ghost use Rattle.std.specs.Prelude.{vec_capacity};
    ghost use Rattle.binder.specs.Held.{Answering, IsRoster};

    ghost Value = { Answering };

    ghost view = { λ a. record { count = a.count; given = a.given.items } };

    ghost invariant = { λ a. IsRoster a.count a.given.items (vec_capacity a.given) };
}

impl Answers {
    ghost use Rattle.binder.specs.Held.{Answering};

    pub(crate) fn new(alloc: Global, count: u32) -> Result<Answers, AllocError>
        ensures { IfOk result (λ made. made ≡ record { count = count; given = [] }) }
    {
        Ok(Answers {
            count,
            given: Vec::with_capacity(alloc, count as usize)?,
        })
    }

    pub(crate) fn has(&self, node: u32) -> bool
        ensures { result ≡ has_node self.now.given node }
    {
        self.given.contains(&node)
    }

    /// Notes the answer of `node`, once.
    pub(crate) fn note(&mut self, node: u32)
        requires { node < self.old.count }
        ensures { self.new ≡ record self.old { given = answered_by self.old.given node } }
    {
        if !self.given.contains(&node) {
            self.given.push_reserved(node);
        }
    }

    pub(crate) fn are_all(&self) -> bool
        ensures { result ≡ has_all self.now.count self.now.given }
    {
        self.given.len() == self.count as usize
    }

    /// They are all, once this node has answered.
    pub(crate) fn are_all_with(&self, node: u32) -> bool
        requires { node < self.now.count }
        ensures { result ≡ has_all self.now.count (answered_by self.now.given node) }
    {
        if self.has(node) {
            return self.are_all();
        }
        self.given.len() == self.count as usize - 1
    }

    /// No answer is awaited.
    pub(crate) fn are_none(&self) -> bool
        ensures { result ≡ has_all self.now.count [] }
    {
        self.count == 0
    }

    pub(crate) fn clear(&mut self)
        ensures { self.new ≡ record self.old { given = [] } }
    {
        self.given.clear();
    }
}
