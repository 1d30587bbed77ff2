//! The state of a sequencing replica.

ghost use Rattle.std.specs.Prelude.{◌≡◌, ◌+◌, ◌<◌, IfOk};
ghost use Rattle.lazy_rules.specs.SeqState.{first_seq, first_view};

use binder::Binder;
use lazy_msgs::PENDING_LIMIT;
use pending_log::PendingLog;
use seen_window::SeenWindow;
use std::alloc::{AllocError, Global};
use std::marker::Model;
use view_config::{Config, Shape, seq_id};

/// A sequencing replica. It has room for 4,096 items that aren't bound, and takes no memory for them
/// later; for data that is shared it takes none at all.
#[derive(Drop)]
pub struct SeqNode {
    pub(crate) alloc: Global,
    pub(crate) shape: Shape,
    pub(crate) node: u32,
    pub(crate) view: u32,
    pub(crate) config: Config,
    pub(crate) sealed: bool,
    pub(crate) barred: u32,
    pub(crate) bound: u32,
    pub(crate) window: SeenWindow,
    pub(crate) pending: PendingLog,
    pub(crate) binder: Binder,
}

impl Model for SeqNode {
    ghost use Rattle.lazy_rules.specs.SeqState.{SeqState};

    ghost Value = { SeqState };

    ghost use Rattle.seq_node.specs.NodeView.{seq_of, IsSeqNode};

    ghost view = { seq_of };

    ghost invariant = { IsSeqNode };
}

/// The view that replica `index` is started in at first: the spares aren't.
fn first_view(shape: &Shape, index: u32) -> u32
    ensures { result ≡ first_view shape.now index }
{
    if index < shape.seq { 1 } else { 0 }
}

impl SeqNode {
    /// Replica `index`, started in view 1 unless it is a spare.
    pub fn new(alloc: Global, shape: &Shape, index: u32) -> Result<SeqNode, AllocError>
        requires { index < shape.now.seq + shape.now.spares }
        ensures { IfOk result (λ made. made ≡ first_seq shape.now index) }
    {
        Ok(SeqNode {
            alloc,
            shape: *shape,
            node: seq_id(index),
            view: first_view(shape, index),
            config: Config::initial(alloc, shape)?,
            sealed: false,
            barred: 0,
            bound: 0,
            window: SeenWindow::new(alloc, shape.clients, shape.edition.window())?,
            pending: PendingLog::with_capacity(alloc, PENDING_LIMIT as usize)?,
            binder: Binder::new(alloc, shape.shards, shape.seq - 1)?,
        })
    }

    /// The view that it is in, 0 where it never started one.
    pub fn started_view(&self) -> u32
        ensures { result ≡ self.now.view }
    {
        self.view
    }

    pub fn sealed(&self) -> bool
        ensures { result ≡ self.now.sealed }
    {
        self.sealed
    }

    /// How many positions it knows to be bound.
    pub fn bound(&self) -> u32
        ensures { result ≡ self.now.bound }
    {
        self.bound
    }

    /// What isn't bound yet, in its order.
    pub fn pending(&self) -> &PendingLog
        ensures { result.now.items ≡ self.now.pending }
    {
        &self.pending
    }
}
