//! Copied: a backup is known to have the order up to here.

ghost use Rattle.std.specs.Prelude.{◌≡◌, IfOk, OnOk};
ghost use Rattle.lazy_msgs.specs.declared.msg.Msg.TheVariants.{Copied};
ghost use Rattle.lazy_msgs.specs.Step.{StepsTo};
ghost use Rattle.lazy_rules.specs.Pushing.{settles};
ghost use Rattle.lazy_rules.specs.ShardRules.{raised_of, has_backup, on_copied, shard_took};
ghost use Rattle.shard_node.specs.Seated.{row_of, seated};

use crate::ahead::Ahead;
use crate::door::is_node;
use crate::draft::{Draft, Made, copy_jobs};
use crate::node::ShardNode;
use crate::seat::{Backup, Seat, raised_of};
use lazy_msgs::{Outbox, StepRefused};
use plain_lists::Sequence;
use std::alloc::AllocError;

impl ShardNode {
    /// The node is one of the backups.
    fn has_backup(&self, node: u32) -> bool
        ensures { result ≡ has_backup self.now node }
    {
        self.seat.backups.iter().any(|backup| backup.node == node)
    }

    /// The replica's part, with other backups.
    fn seat_with(&self, backups: Vec<Backup>) -> Seat
        ensures { result ≡ record { shape = self.now.shape; node = self.now.node; view = self.now.view; primary = self.now.primary; backups = backups.items } }
    {
        Seat {
            shape: self.seat.shape,
            node: self.seat.node,
            view: self.seat.view,
            primary: self.seat.primary,
            backups,
        }
    }

    /// What comes of these backups.
    fn settled(&self, seat: &Seat) -> Result<Made, AllocError>
        ensures { IfOk result (λ made. row_of (record { seat = seat.now; store = self.now.store; jobs = made.jobs.items; flush = made.flush; sends = made.sends }) ≡ settles (seated seat.now self.now.store self.now.jobs self.now.flush)) }
    {
        let jobs = copy_jobs(self.allocator(), &self.jobs)?;
        let mut draft = Draft::new(seat, Ahead::unchanged(&self.store), jobs, self.flush);
        draft.settle()?;
        Ok(draft.into_made())
    }

    /// Notes that a backup has the order up to `upto`, and settles what all have.
    fn note_copied(&mut self, node: u32, upto: u32, out: &mut Outbox) -> Result<(), StepRefused>
        ensures { StepsTo (settles (record self.old { backups = raised_of node upto self.old.backups })) self.old self.new out.old out.new result StepRefused.Over }
    {
        let backups = raised_of(self.allocator(), node, upto, &self.seat.backups)?;
        let seat = self.seat_with(backups);
        let Made { jobs, flush, sends } = self.settled(&seat)?;
        out.put(sends, Sequence::new(self.allocator()))?;
        self.seat = seat;
        self.jobs = jobs;
        self.flush = flush;
        Ok(())
    }

    fn on_copied(
        &mut self,
        sender: u32,
        view: u32,
        upto: u32,
        out: &mut Outbox,
    ) -> Result<(), StepRefused>
        ensures { StepsTo (on_copied self.old sender view upto) self.old self.new out.old out.new result StepRefused.Over }
    {
        if !self.is_primary(view) {
            return Ok(());
        }
        if !self.has_backup(sender) {
            return Ok(());
        }
        if upto > self.store.len() {
            return Ok(());
        }
        self.note_copied(sender, upto, out)
    }

    /// Takes a Copied.
    pub(crate) fn copied(
        &mut self,
        sender: u32,
        view: u32,
        upto: u32,
        out: &mut Outbox,
    ) -> Result<(), StepRefused>
        ensures { StepsTo (shard_took self.old sender (Copied view upto)) self.old self.new out.old out.new result StepRefused.Over }
    {
        if !is_node(&self.seat.shape, sender) {
            return Ok(());
        }
        self.on_copied(sender, view, upto, out)
    }
}
