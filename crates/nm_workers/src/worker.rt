//! A worker: it calls one target, on a thread of its own or on the owner's.
ghost use Rattle.std.specs.Prelude.{◌≡◌, ◌≤◌, [], ◌∷◌, ◌++◌, true, false};
ghost use Rattle.nm_mailbox.specs.Ends.{outcomes_by};
ghost use Rattle.nm_workers.specs.Working.{HearsAndCalls, WorksFor};

use crate::job::{Extent, Job, JobResult};
use crossbeam_channel::Receiver;
use nm_mailbox::OutcomeEnd;
use nm_session::Target;
use std::alloc::Global;
use std::marker::PhantomData;
use std::sync::Wait;

// The target that it calls, and where it reports what came of it.
#[derive(Drop)]
pub struct Worker<E: Extent, T: Target> {
    target: T,
    outcomes: OutcomeEnd<JobResult<E, T>>,
    of: PhantomData<E>,
    ghost size: { E.bytes ≤ T.size target },
}

// A worker without jobs, and whether each of its results was heard.
#[derive(Drop)]
pub struct Worked<E: Extent, T: Target> {
    worker: Worker<E, T>,
    heard: bool,
}

impl<E: Extent, T: Target> Worker<E, T> {
    // The worker of this target.
    pub(crate) fn new(target: T, outcomes: OutcomeEnd<JobResult<E, T>>) -> Worker<E, T>
        requires { E.bytes ≤ T.size target }
        ensures target { result.target ≡ target }
        ensures outcomes { result.outcomes ≡ outcomes }
    {
        Worker {
            target,
            outcomes,
            of: PhantomData,
        }
    }

    // Calls the target for a job, which it hears of right before, and for nothing else.
    pub(crate) fn do_job(self, alloc: Global, job: Job<E, T>) -> (JobResult<E, T>, Worker<E, T>)
        ensures index { result.0.index ≡ job.index }
        ensures task { result.0.task ≡ job.task }
        ensures calls { HearsAndCalls T.Target job.task job.payload result.0.outcome
            self.target result.1.target }
        ensures outcomes { result.1.outcomes ≡ self.outcomes }
    {
        let Worker {
            mut target,
            outcomes,
            of: _,
        } = self;
        let done = JobResult::of(alloc, &mut target, job);
        (done, Worker::new(target, outcomes))
    }

    // Reports the result of a job. False where nobody hears of it.
    fn report<R: Wait>(&mut self, rt: &R, done: JobResult<E, T>) -> bool
        ensures target { self.new.target ≡ self.old.target }
        ensures heard { result ≡ true
            → outcomes_by self.new.outcomes ≡ outcomes_by self.old.outcomes ++ done ∷ [] }
        ensures unheard { result ≡ false
            → outcomes_by self.new.outcomes ≡ outcomes_by self.old.outcomes }
    {
        self.outcomes.send(rt, done).is_ok()
    }
}

// Does each job and reports its result, until no more come. Every job handed out is done, also once
// nobody hears of it any more.
pub(crate) fn work<R: Wait, E: Extent, T: Target + Drop>(
    rt: &R,
    alloc: Global,
    worker: Worker<E, T>,
    jobs: Receiver<Job<E, T>>,
) -> Worked<E, T>
    ensures { WorksFor T.Target worker.target result.worker.target result.heard
        (outcomes_by worker.outcomes) (outcomes_by result.worker.outcomes) }
{
    let (mut worker, mut heard) = (worker, true);
    'jobs: for _ in rt.forever() {
        let Ok(job) = jobs.recv(rt) else {
            return Worked { worker, heard };
        };
        let (done, after) = worker.do_job(alloc, job);
        worker = after;
        heard = heard && worker.report(rt, done);
    }
    unreachable!()
}
