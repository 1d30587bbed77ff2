//! The row of a primary as it is made: its jobs are pushed to the backups, and settled, over a store
//! as it will be.

ghost use Rattle.std.specs.Prelude.{◌≡◌, ◌++◌, IfOk, IfSome, IfNone, OnOk, [], ◌∷◌, true, not, map, filter, nat_lt, slice_get};
ghost use Rattle.std.specs.List.{list_all};
ghost use Rattle.lazy_msgs.specs.declared.msg.Msg.TheVariants.{Copy, FlushCopy};
ghost use Rattle.lazy_rules.specs.Rows.{stays, sends_all, followed, to_each};
ghost use Rattle.lazy_rules.specs.Pushing.{is_settled, lagging, length_of, flush_ends, settles, reaches, pushes_place, pushes_flush, pushes_places, pushes_above};
ghost use Rattle.std.specs.Option.{option_map_or};
ghost use Rattle.std.specs.Prelude.{slice_range, drop};
ghost use Rattle.shard_node.specs.Seated.{row_of, ends};

use crate::ahead::Ahead;
use crate::seat::{Backup, FlushJob, PlaceJob, Seat};
use crate::sending::send_each;
use lazy_msgs::{Msg, SendList};
use plain_lists::Sequence;
use rec_id::CellList;
use std::alloc::{AllocError, Global};
use std::marker::Model;
use view_config::NodeList;

/// What a row has come to.
#[derive(Drop)]
pub(crate) struct Draft<'a> {
    seat: &'a Seat,
    store: Ahead<'a>,
    jobs: Vec<PlaceJob>,
    flush: Option<FlushJob>,
    sends: SendList,
}

impl<'a> Model for Draft<'a> {
    ghost use Rattle.shard_node.specs.Seated.{Drafted};

    ghost Value = { Drafted };

    ghost view = { λ a. record { seat = a.seat.now; store = a.store; jobs = a.jobs.items; flush = a.flush; sends = a.sends } };
}

/// What a row leaves a primary at, and what it sends.
#[derive(Drop)]
pub(crate) struct Made {
    pub(crate) jobs: Vec<PlaceJob>,
    pub(crate) flush: Option<FlushJob>,
    pub(crate) sends: SendList,
}

/// Equal jobs.
pub(crate) fn copy_jobs(alloc: Global, jobs: &[PlaceJob]) -> Result<Vec<PlaceJob>, AllocError>
    ensures { IfOk result (λ made. made.items ≡ jobs.now) }
{
    let mut made = Vec::new(alloc);
    for job in jobs {
        made.push(*job)?;
    }
    Ok(made)
}

/// The backups that aren't known to have the order up to `upto`.
fn lagging(alloc: Global, backups: &[Backup], upto: u32) -> Result<NodeList, AllocError>
    ensures { IfOk result (λ nodes. nodes ≡ map (λ backup. backup.node) (filter (λ backup. not (reaches upto backup)) backups.now)) }
{
    let mut nodes = Sequence::new(alloc);
    for backup in backups {
        if !backup.reaches(upto) {
            nodes.push(backup.node)?;
        }
    }
    Ok(nodes)
}

/// All are known to have the order up to `upto`.
fn have_all(backups: &[Backup], upto: u32) -> bool
    ensures { result ≡ list_all (reaches upto) backups.now }
{
    backups.iter().all(|backup| backup.reaches(upto))
}

fn first_job(jobs: &[PlaceJob]) -> Option<PlaceJob>
    ensures { result ≡ slice_get jobs.now 0 }
{
    jobs.first().copied()
}

impl<'a> Draft<'a> {
    /// The row of a replica that is at this and sends nothing.
    pub(crate) fn new(
        seat: &'a Seat,
        store: Ahead<'a>,
        jobs: Vec<PlaceJob>,
        flush: Option<FlushJob>,
    ) -> Draft<'a>
        ensures { result ≡ record { seat = seat.now; store = store.entry; jobs = jobs.items; flush = flush; sends = [] } }
    {
        let alloc = *jobs.allocator();
        Draft {
            seat,
            store,
            jobs,
            flush,
            sends: Sequence::new(alloc),
        }
    }

    pub(crate) fn into_made(self) -> Made
        ensures jobs { result.jobs.items ≡ self.entry.jobs }
        ensures flush { result.flush ≡ self.entry.flush }
        ensures sends { result.sends ≡ self.entry.sends }
    {
        let Draft {
            seat: _,
            store: _,
            jobs,
            flush,
            sends,
        } = self;
        Made { jobs, flush, sends }
    }

    /// The order up to `upto` has no open cell, and every backup is known to have it.
    fn is_settled(&self, upto: u32) -> bool
        ensures { result ≡ is_settled (row_of self.now).next upto }
    {
        if self.store.has_open_below(upto) {
            return false;
        }
        let seat = self.seat;
        have_all(&seat.backups, upto)
    }

    /// The backups that aren't known to have the order up to `upto`.
    fn lagging(&self, upto: u32) -> Result<NodeList, AllocError>
        ensures { IfOk result (λ nodes. nodes ≡ lagging (row_of self.now).next upto) }
    {
        let seat = self.seat;
        lagging(*self.jobs.allocator(), &seat.backups, upto)
    }

    /// Takes the first job out, if what it placed is settled.
    fn next_settled(&mut self) -> Option<PlaceJob>
        ensures same { (self.new.seat ≡ self.old.seat) × (self.new.store ≡ self.old.store) }
        ensures sends { (self.new.flush ≡ self.old.flush) × (self.new.sends ≡ self.old.sends) }
        ensures some { IfSome result (λ job. (self.old.jobs ≡ job ∷ self.new.jobs) × (is_settled (row_of self.old).next job.end ≡ true)) }
        ensures none_jobs { IfNone result (self.new.jobs ≡ self.old.jobs) }
        ensures none { IfNone result (ends (row_of self.old).next ≡ stays (row_of self.old).next) }
    {
        match first_job(&self.jobs) {
            Some(job) => {
                if !self.is_settled(job.end) {
                    return None;
                }
                let _ = self.jobs.remove(0);
                Some(job)
            }
            None => None,
        }
    }

    /// Ends the first Place jobs, while what they placed is settled.
    fn end_places(&mut self) -> Result<(), AllocError>
        ensures seat { self.new.seat ≡ self.old.seat }
        ensures store { self.new.store ≡ self.old.store }
        ensures row { OnOk result (row_of self.new ≡ followed (row_of self.old) ends) }
    {
        let seat = self.seat;
        while let Some(job) = self.next_settled() {
            let view = seat.view;
            let upto = job.end;
            self.sends.push((job.asker, Msg::Placed { view, upto }))?;
        }
        Ok(())
    }

    /// Ends a Flush job where the whole order is settled.
    fn end_flush(&mut self) -> Result<(), AllocError>
        ensures seat { self.new.seat ≡ self.old.seat }
        ensures store { self.new.store ≡ self.old.store }
        ensures row { OnOk result (row_of self.new ≡ followed (row_of self.old) (λ s. option_map_or (flush_ends s) s.flush (stays s))) }
    {
        let Some(job) = self.flush else {
            return Ok(());
        };
        if !self.is_settled(self.store.len()) {
            return Ok(());
        }
        let seat = self.seat;
        let view = seat.view;
        self.sends.push((job.asker, Msg::Flushed { view }))?;
        self.flush = None;
        Ok(())
    }

    /// Answers for what all backups have.
    pub(crate) fn settle(&mut self) -> Result<(), AllocError>
        ensures seat { self.new.seat ≡ self.old.seat }
        ensures store { self.new.store ≡ self.old.store }
        ensures row { OnOk result (row_of self.new ≡ followed (row_of self.old) settles) }
    {
        self.end_places()?;
        self.end_flush()?;
        Ok(())
    }

    /// The cells of a job for the backups that lack them.
    fn send_copies(&mut self, job: PlaceJob) -> Result<(), AllocError>
        ensures seat { self.new.seat ≡ self.old.seat }
        ensures store { self.new.store ≡ self.old.store }
        ensures row { OnOk result (row_of self.new ≡ followed (row_of self.old) (λ s. sends_all s (to_each (lagging s job.end) (Copy s.view job.from (slice_range s.store.order job.from job.end))))) }
    {
        let nodes = self.lagging(job.end)?;
        if nodes.is_empty() {
            return Ok(());
        }
        let alloc = *self.jobs.allocator();
        let seat = self.seat;
        let view = seat.view;
        let cells = self.store.cells(alloc, job.from, job.end)?;
        let from = job.from;
        send_each(
            &mut self.sends,
            nodes.as_slice(),
            Msg::Copy { view, from, cells },
        )?;
        Ok(())
    }

    /// The flushed cells for the backups that lack them.
    fn send_flush_copies(&mut self, job: FlushJob) -> Result<(), AllocError>
        ensures seat { self.new.seat ≡ self.old.seat }
        ensures store { self.new.store ≡ self.old.store }
        ensures row { OnOk result (row_of self.new ≡ followed (row_of self.old) (λ s. sends_all s (to_each (lagging s (length_of s)) (FlushCopy s.view job.from (drop job.from s.store.order))))) }
    {
        let nodes = self.lagging(self.store.len())?;
        if nodes.is_empty() {
            return Ok(());
        }
        let alloc = *self.jobs.allocator();
        let seat = self.seat;
        let view = seat.view;
        let cells = self.store.cells(alloc, job.from, self.store.len())?;
        let from = job.from;
        send_each(
            &mut self.sends,
            nodes.as_slice(),
            Msg::FlushCopy { view, from, cells },
        )?;
        Ok(())
    }

    /// Pushes a Place job to the backups, unless a cell up to its end is open.
    pub(crate) fn push_place(&mut self, job: PlaceJob) -> Result<(), AllocError>
        ensures seat { self.new.seat ≡ self.old.seat }
        ensures store { self.new.store ≡ self.old.store }
        ensures row { OnOk result (row_of self.new ≡ followed (row_of self.old) (λ s. pushes_place s job)) }
    {
        if self.store.has_open_below(job.end) {
            return Ok(());
        }
        self.send_copies(job)?;
        self.settle()?;
        Ok(())
    }

    /// Pushes a Flush job to the backups, unless a cell is open.
    pub(crate) fn push_flush(&mut self, job: FlushJob) -> Result<(), AllocError>
        ensures seat { self.new.seat ≡ self.old.seat }
        ensures store { self.new.store ≡ self.old.store }
        ensures row { OnOk result (row_of self.new ≡ followed (row_of self.old) (λ s. pushes_flush s job)) }
    {
        if self.store.has_open() {
            return Ok(());
        }
        self.send_flush_copies(job)?;
        self.settle()?;
        Ok(())
    }

    /// Pushes these Place jobs, if they end above `place`.
    fn push_places(&mut self, jobs: &[PlaceJob], place: u32) -> Result<(), AllocError>
        ensures seat { self.new.seat ≡ self.old.seat }
        ensures store { self.new.store ≡ self.old.store }
        ensures row { OnOk result (row_of self.new ≡ followed (row_of self.old) (λ s. pushes_places s (filter (λ job. nat_lt place job.end) jobs.now))) }
    {
        for job in jobs {
            if place < job.end {
                self.push_place(*job)?;
            }
        }
        Ok(())
    }

    /// Pushes a Flush job, if there is one.
    fn push_open_flush(&mut self) -> Result<(), AllocError>
        ensures seat { self.new.seat ≡ self.old.seat }
        ensures store { self.new.store ≡ self.old.store }
        ensures row { OnOk result (row_of self.new ≡ followed (row_of self.old) (λ s. option_map_or (pushes_flush s) s.flush (stays s))) }
    {
        match self.flush {
            Some(job) => self.push_flush(job),
            None => Ok(()),
        }
    }

    /// Pushes each Place job that ends above `place`, and a Flush job.
    pub(crate) fn push_above(&mut self, place: u32) -> Result<(), AllocError>
        ensures seat { self.new.seat ≡ self.old.seat }
        ensures store { self.new.store ≡ self.old.store }
        ensures row { OnOk result (row_of self.new ≡ followed (row_of self.old) (λ s. pushes_above s place)) }
    {
        let jobs = copy_jobs(*self.jobs.allocator(), &self.jobs)?;
        self.push_places(&jobs, place)?;
        self.push_open_flush()?;
        Ok(())
    }
}
