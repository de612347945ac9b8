//! The workers of a session. Each gets its thread once there is something to do for it.
ghost use Rattle.std.specs.Prelude.{◌≡◌, ◌≤◌, ◌<◌, All, IsSome, IsTrue, Some, vec_len};
ghost use Rattle.std.specs.Prelude.{vec_capacity};

use crate::job::{Extent, Job, JobResult};
use crate::worker::{Worker, work};
use crossbeam_channel::{Receiver, Sender, bounded};
use nm_mailbox::OutcomeEnd;
use nm_session::Target;
use nm_wire::Memory;
use std::alloc::Global;
use std::sync::Wait;
use std::thread::{Scope, Threads};

// How many jobs wait at most.
const WAITING: usize = 16;

// The workers of a session while none of them has a thread, and the channel through which they get
// their jobs.
#[derive(Drop)]
pub struct IdleWorkers<E: Extent, T: Target> {
    jobs: Sender<Job<E, T>>,
    tasks: Receiver<Job<E, T>>,
    pub(crate) spare: Vec<Worker<E, T>>,
}

impl<E: Extent, T: Target + Drop> IdleWorkers<E, T> {
    // A worker for each target, at most one for each end.
    pub(crate) fn new(
        alloc: Global,
        targets: Vec<T>,
        ends: Vec<OutcomeEnd<JobResult<E, T>>>,
    ) -> Result<IdleWorkers<E, T>, Memory>
        requires sizes { All (λ target. E.bytes ≤ T.size target) targets.items }
    {
        let (jobs, tasks) = bounded::<Job<E, T>, Global>(alloc, WAITING)?;
        let spare = spare_workers::<E, T>(alloc, targets, ends)?;
        Ok(IdleWorkers { jobs, tasks, spare })
    }
}

// A worker for each target, at most one for each end.
fn spare_workers<E: Extent, T: Target + Drop>(
    alloc: Global,
    targets: Vec<T>,
    ends: Vec<OutcomeEnd<JobResult<E, T>>>,
) -> Result<Vec<Worker<E, T>>, Memory>
    requires sizes { All (λ target. E.bytes ≤ T.size target) targets.items }
{
    let mut ends = ends;
    let mut spare = Vec::with_capacity(alloc, targets.len())?;
    'targets: for target in targets {
        let Some(outcomes) = ends.pop() else {
            return Ok(spare);
        };
        if spare.push(Worker::new(target, outcomes)).is_err() {
            return Err(Memory);
        }
    }
    Ok(spare)
}

// The workers of a session, of whom some have a thread, and the job that was got last. They end
// once it is gone and all jobs that they were handed are done.
#[derive(Drop)]
pub struct WorkerPool<'a, 's, S, E: Extent, T: Target> {
    scope: &'a Scope<'s, S>,
    pub(crate) idle: IdleWorkers<E, T>,
    started: usize,
    pub(crate) deferred: Option<Job<E, T>>,
}

impl<'a, 's, S, E: Extent, T: Target> WorkerPool<'a, 's, S, E, T> {
    // A pool of which no worker has a thread yet.
    pub(crate) fn new(
        scope: &'a Scope<'s, S>,
        idle: IdleWorkers<E, T>,
    ) -> WorkerPool<'a, 's, S, E, T> {
        WorkerPool {
            scope,
            idle,
            started: 0,
            deferred: None,
        }
    }

    // The scope of the workers' threads.
    pub(crate) fn scope(&self) -> &'a Scope<'s, S> {
        self.scope
    }

    // Whether a job is deferred.
    pub(crate) fn has_deferred(&self) -> bool {
        self.deferred.is_some()
    }

    // Whether the job that is deferred is short, and a worker is left to do it here.
    pub(crate) fn can_do_it_here(&self) -> bool
        ensures deferred { IsTrue result → IsSome self.now.deferred }
        ensures spare { IsTrue result → 0 < vec_len self.now.idle.spare }
    {
        match &self.deferred {
            Some(job) => job.is_short() && !self.idle.spare.is_empty(),
            None => false,
        }
    }

    // Takes the job that is deferred, and a worker without a thread.
    pub(crate) fn take_deferred(&mut self) -> (Job<E, T>, Worker<E, T>)
        requires deferred { IsSome self.old.deferred }
        requires spare { 0 < vec_len self.old.idle.spare }
        ensures job { self.old.deferred ≡ Some result.0 }
        ensures room { vec_len self.new.idle.spare < vec_capacity self.new.idle.spare }
    {
        (
            self.deferred.take().unwrap(),
            self.idle.spare.pop().unwrap(),
        )
    }

    // Takes the worker back, for which there is room.
    pub(crate) fn take_back(&mut self, worker: Worker<E, T>)
        requires room { vec_len self.old.idle.spare < vec_capacity self.old.idle.spare }
    {
        self.idle.spare.push_reserved(worker);
    }
}

// Defers the job, and hands the one before it to the workers.
pub(crate) fn defer_job<'s, S, E, R, T>(
    rt: &'s R,
    alloc: Global,
    pool: &mut WorkerPool<'_, 's, S, E, T>,
    job: Job<E, T>,
    under_way: usize,
) -> Result<(), Memory>
where
    E: Extent + Send + 's,
    R: Threads + Wait + Sync + 's,
    T: Target + Send + Drop + 's,
{
    submit_deferred(rt, alloc, pool, under_way)?;
    pool.deferred = Some(job);
    Ok(())
}

// Hands the job that is deferred to the workers, if there is one.
pub(crate) fn submit_deferred<'s, S, E, R, T>(
    rt: &'s R,
    alloc: Global,
    pool: &mut WorkerPool<'_, 's, S, E, T>,
    under_way: usize,
) -> Result<(), Memory>
where
    E: Extent + Send + 's,
    R: Threads + Wait + Sync + 's,
    T: Target + Send + Drop + 's,
{
    match pool.deferred.take() {
        Some(job) => submit_job(rt, alloc, pool, job, under_way),
        None => Ok(()),
    }
}

// Hands the job to the workers while so many requests are under way, this one among them. One more
// gets its thread where all that have one may be at work.
fn submit_job<'s, S, E, R, T>(
    rt: &'s R,
    alloc: Global,
    pool: &mut WorkerPool<'_, 's, S, E, T>,
    job: Job<E, T>,
    under_way: usize,
) -> Result<(), Memory>
where
    E: Extent + Send + 's,
    R: Threads + Wait + Sync + 's,
    T: Target + Send + Drop + 's,
{
    if pool.started < under_way && start_worker(rt, alloc, pool)? {
        pool.started += 1;
    }
    if pool.started == 0 || pool.idle.jobs.send(rt, job).is_err() {
        return Err(Memory);
    }
    Ok(())
}

// Starts the thread of one more worker, and says whether there was one.
fn start_worker<'s, S, E, R, T>(
    rt: &'s R,
    alloc: Global,
    pool: &mut WorkerPool<'_, 's, S, E, T>,
) -> Result<bool, Memory>
where
    E: Extent + Send + 's,
    R: Threads + Wait + Sync + 's,
    T: Target + Send + Drop + 's,
    ensures started { pool.new.started ≡ pool.old.started }
{
    let Some(worker) = pool.idle.spare.pop() else {
        return Ok(false);
    };
    let jobs = pool.idle.tasks.clone()?;
    let start = pool
        .scope
        .spawn(move || drop(work(rt, alloc, worker, jobs)));
    if start.is_err() {
        return Err(Memory);
    }
    Ok(true)
}
