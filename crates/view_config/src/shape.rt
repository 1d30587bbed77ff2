//! The shape of a log, within the limits.

ghost use Rattle.std.specs.Prelude.{◌≡◌, ◌↔◌, IsSome, IfSome};
ghost use Rattle.view_config.specs.Shape.{Dimensions, IsShape, node_of, shard_node_of};

use crate::limits::{MAX_CLIENTS, MAX_COPIES, MAX_SEQ, MAX_SHARDS};
use crate::nodes::{CONTROLLER, FIRST_SEQ, FIRST_SHARD};
use crate::{Edition, Mode, Node};
use std::marker::Model;

/// How many nodes of each role a log has. Sequencing replicas: 1 to 7, these with spares at most 7;
/// shards: 1 to 8; copies, the replicas of a shard: 1 to 4; clients: 1 to 256.
#[derive(Clone, Copy, Debug, PartialEq, Eq)]
pub struct Shape {
    pub edition: Edition,
    pub mode: Mode,
    pub seq: u32,
    pub spares: u32,
    pub shards: u32,
    pub copies: u32,
    pub clients: u32,
}

impl Model for Shape {
    ghost use Rattle.view_config.specs.Shape.{Dimensions, IsShape};

    ghost Value = { Dimensions };

    ghost view = { λ a. record { edition = a.edition; mode = a.mode; seq = a.seq; spares = a.spares; shards = a.shards; copies = a.copies; clients = a.clients } };

    ghost invariant = { λ a. IsShape (record { edition = a.edition; mode = a.mode; seq = a.seq; spares = a.spares; shards = a.shards; copies = a.copies; clients = a.clients }) };

    ghost inverse = { λ a. record { edition = a.edition; mode = a.mode; seq = a.seq; spares = a.spares; shards = a.shards; copies = a.copies; clients = a.clients } };
}

impl Shape {
    /// The shape of edition One with these numbers, `None` where one is outside its limits.
    pub fn new(
        mode: Mode,
        seq: u32,
        spares: u32,
        shards: u32,
        copies: u32,
        clients: u32,
    ) -> Option<Shape>
        ensures value { IfSome result (λ shape. shape ≡ record { edition = Edition.One; mode = mode; seq = seq; spares = spares; shards = shards; copies = copies; clients = clients }) }
        ensures valid { IsSome result ↔ IsShape (record { edition = Edition.One; mode = mode; seq = seq; spares = spares; shards = shards; copies = copies; clients = clients }) }
    {
        Shape::of(Edition::One, mode, seq, spares, shards, copies, clients)
    }

    /// The shape with these numbers, `None` where one is outside its limits.
    pub fn of(
        edition: Edition,
        mode: Mode,
        seq: u32,
        spares: u32,
        shards: u32,
        copies: u32,
        clients: u32,
    ) -> Option<Shape>
        ensures value { IfSome result (λ shape. shape ≡ record { edition = edition; mode = mode; seq = seq; spares = spares; shards = shards; copies = copies; clients = clients }) }
        ensures valid { IsSome result ↔ IsShape (record { edition = edition; mode = mode; seq = seq; spares = spares; shards = shards; copies = copies; clients = clients }) }
    {
        if seq < 1 || seq > MAX_SEQ || spares > MAX_SEQ - seq {
            return None;
        }
        if shards < 1 || shards > MAX_SHARDS || copies < 1 || copies > MAX_COPIES {
            return None;
        }
        if clients < 1 || clients > MAX_CLIENTS {
            return None;
        }
        Some(Shape {
            edition,
            mode,
            seq,
            spares,
            shards,
            copies,
            clients,
        })
    }

    /// The node of this number, `None` where the shape has none.
    pub fn node(&self, number: u32) -> Option<Node>
        ensures node { result ≡ node_of self.now number }
        ensures valid { IsShape self.now }
    {
        if number < self.clients {
            return Some(Node::Client(number));
        }
        if number == CONTROLLER {
            return Some(Node::Controller);
        }
        if FIRST_SEQ <= number && number < FIRST_SEQ + self.seq + self.spares {
            return Some(Node::Seq(number - FIRST_SEQ));
        }
        self.shard_node(number)
    }

    /// The shard replica of this number, `None` where the shape has none.
    fn shard_node(&self, number: u32) -> Option<Node>
        ensures { result ≡ shard_node_of self.now number }
    {
        if number < FIRST_SHARD || number >= FIRST_SHARD + MAX_COPIES * self.shards {
            return None;
        }
        let copy = (number - FIRST_SHARD) % MAX_COPIES;
        if copy < self.copies {
            return Some(Node::Shard((number - FIRST_SHARD) / MAX_COPIES, copy));
        }
        None
    }
}
