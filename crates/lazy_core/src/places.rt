//! Where the state of a node stands among those of all: the clients come first, then the controller, the
//! sequencing replicas and the shard replicas, as their numbers go.

ghost use Rattle.std.specs.Prelude.{◌≡◌};
ghost use Rattle.lazy_core.specs.Standing.{place_of};

use view_config::{Node, Shape};

/// Where the state of the node of this number stands, `None` where the shape has none.
pub(crate) fn place_of(shape: &Shape, number: u32) -> Option<usize>
    ensures { result ≡ place_of shape.now number }
{
    match shape.node(number)? {
        Node::Client(c) => Some(c as usize),
        Node::Controller => Some(shape.clients as usize),
        Node::Seq(i) => Some((shape.clients + 1 + i) as usize),
        Node::Shard(i, j) => {
            let before = shape.clients + 1 + shape.seq + shape.spares;
            Some((before + i * shape.copies + j) as usize)
        }
    }
}
