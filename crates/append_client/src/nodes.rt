//! Which nodes are among some. The lists are of a few nodes, so they are gone over in place: a call of a
//! search made for long ones costs more.

ghost use Rattle.std.specs.Prelude.{◌≡◌};
ghost use Rattle.lazy_rules.specs.Rows.{has_node};

/// The node is among these.
#[inline(always)]
pub(crate) fn has_node(nodes: &[u32], node: u32) -> bool
    ensures { result ≡ has_node nodes.now node }
{
    nodes.iter().any(|other| *other == node)
}
