//! What each node has of its shape, and who sends what to whom.

ghost use Rattle.world_facts.specs.MembersOf.{HasMembers};
ghost use Rattle.world_facts.specs.Reached.{InEveryWorld, TurnsByEvents};

/// A law, and no code. In every shape, after every list of events: each node has the shape and its own
/// number; configurations name replicas of the shape, some for each role; each message goes from a node that
/// sends its kind to a node that takes it, a Claim to the board. So no message is lost, and each event that
/// isn't refused is one turn of one node.
pub fn every_message_goes_where_it_is_due()
    ensures members { InEveryWorld HasMembers }
    ensures turn { InEveryWorld (λ shape w. TurnsByEvents w) }
{}
