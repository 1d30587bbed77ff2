//! What a replica is in a view: active or not, leader or follower, and with how much room.

ghost use Rattle.std.specs.Prelude.{◌≡◌};
ghost use Rattle.lazy_rules.specs.Roles.{is_first, follower_of, shard_led_by};
ghost use Rattle.lazy_rules.specs.SeqRules.{is_active, is_leader, has_positions, is_leading, is_following, has_room};

use crate::SeqNode;
use lazy_msgs::PENDING_LIMIT;
use lazy_rules::POSITION_LIMIT;
use view_config::NodeList;

/// The node is the first of these.
pub(crate) fn is_first(nodes: &NodeList, node: u32) -> bool
    ensures { result ≡ is_first nodes.now node }
{
    match nodes.as_slice().first() {
        Some(first) => *first == node,
        None => false,
    }
}

impl SeqNode {
    /// It is in this view, and isn't sealed.
    pub(crate) fn is_active(&self, view: u32) -> bool
        ensures { result ≡ is_active self.now view }
    {
        if self.view != view {
            return false;
        }
        if view < 1 {
            return false;
        }
        !self.sealed
    }

    /// It is the first of its configuration.
    pub(crate) fn is_leader(&self) -> bool
        ensures { result ≡ is_leader self.now }
    {
        is_first(&self.config.seq, self.node)
    }

    /// All positions that it can make are numbers of 32 bits.
    fn has_positions(&self) -> bool
        ensures { result ≡ has_positions self.now }
    {
        self.bound as usize + self.pending.len() < 0x1_0000_0000
    }

    /// It is active in this view, and leads it.
    pub(crate) fn is_leading(&self, view: u32) -> bool
        ensures { result ≡ is_leading self.now view }
    {
        if !self.is_active(view) {
            return false;
        }
        if !self.is_leader() {
            return false;
        }
        self.has_positions()
    }

    /// It is active in this view, and follows.
    pub(crate) fn is_following(&self, view: u32) -> bool
        ensures { result ≡ is_following self.now view }
    {
        if !self.is_active(view) {
            return false;
        }
        !self.is_leader()
    }

    /// There is room for one identity more.
    pub(crate) fn has_room(&self) -> bool
        ensures { result ≡ has_room self.now }
    {
        if self.pending.len() >= PENDING_LIMIT as usize {
            return false;
        }
        self.bound as usize + self.pending.len() < POSITION_LIMIT as usize
    }

    /// The shard whose primary the node is.
    pub(crate) fn shard_led_by(&self, node: u32) -> Option<usize>
        ensures { result ≡ shard_led_by self.now.config node }
    {
        self.config
            .shards
            .as_slice()
            .iter()
            .position(|nodes| is_first(nodes, node))
    }

    /// Which of the followers the node is.
    pub(crate) fn follower_of(&self, node: u32) -> Option<usize>
        ensures { result ≡ follower_of self.now.config node }
    {
        let (_leader, followers) = self.config.seq.as_slice().split_first()?;
        followers.iter().position(|other| *other == node)
    }
}
