//! Diaries of nodes, and what their merge is. No code of a node stands here.
//!
//! `specs/Machines.antt` reads a diary by any machine of nodes: states, rule, and what is given to a node.
//! `specs/Formed.antt` says when a diary is well formed, `specs/Closed.antt` when a list of diaries is closed, and
//! `specs/Merges.antt` which events are its merge. `specs/Nodes.antt` makes the nodes of a world such a machine.
//! `specs/Lived.antt` says what the merge's run comes to, and `specs/Snapshots.antt` what is known of it by the states
//! alone. `proofs/worked.antt` and `proofs/refused.antt` try the definitions on small diaries.
#![tactic(auto)]

mod merged;
mod orders;
mod snapshots;

pub use merged::every_merge_is_lived;
pub use orders::every_merge_has_one_order;
pub use snapshots::every_snapshot_has_the_runs_lines;
