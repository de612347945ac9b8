ghost use Rattle.std.specs.Prelude.{ℕ, ◌≡◌};

use crate::round::NoRequest;
use bytes::{Bytes, BytesMut};
use nm_requests::Task;
use nm_session::{Called, Next, ServeFault, SessionCore, SessionLog, Target, call};
use std::alloc::Global;
use std::marker::{Brand, Model, PhantomData};

/// How many bytes the targets of a session have at least, and the session's name in their history.
/// It stands in proofs alone.
pub trait Extent {
    ghost bytes: { ℕ };

    ghost session: { ℕ };
}

impl Extent for Brand {
    ghost bytes = { 0 };

    ghost session = { 0 };
}

// How many bytes a short job reads or writes at most.
const SHORT: u32 = 128 * 1024;

// A task on its way to a worker, with its payload and the index of its request, and what tells that
// the request came with it. Each target of the session has its bytes. `next` alone makes one, so
// that a worker only calls for what was read.
#[derive(Drop)]
pub struct Job<E: Extent, T: Target> {
    index: u64,
    task: Task,
    payload: Bytes,
    // What a READ may be read into.
    buffer: Vec<u8>,
    asked: T::Told,
    of: PhantomData<E>,
}

impl<E: Extent, T: Target> Model for Job<E, T> {
    ghost use Rattle.nm_workers.specs.JobValue.{JobValue};
    ghost use Rattle.nm_session.specs.Calling.{IsCallable};

    ghost Value = { JobValue };

    ghost view = { λ job. record { index = job.index; task = job.task; payload = job.payload } };

    ghost invariant = { λ job. IsCallable E.bytes job.task job.payload
        × T.Log.has_come E.session job.index job.payload job.asked };
}

impl<E: Extent, T: Target> Job<E, T> {
    ghost use Rattle.std.specs.Prelude.{◌≤◌, IfOk, IfErr};
    ghost use Rattle.nm_session.specs.declared.next.Next.TheVariants.{Issue};
    ghost use Rattle.nm_session.specs.declared.serve_fault.ServeFault.TheVariants.{Memory};
    ghost use Rattle.nm_session.specs.Calling.{IsCallable};
    ghost use Rattle.nm_session.specs.Reading.{Reads};
    ghost use Rattle.nm_wire.specs.Export.{size_of};
    ghost use Rattle.nm_workers.specs.Moving.{HasNoRequest};
    ghost use Rattle.nm_workers.specs.Results.{IsNoted, Comes, moment, ReadsWith};

    // The job of the next request that the core hands out, whose arrival is noted in the log, or
    // why it hands out none.
    pub(crate) fn next(
        alloc: Global,
        core: &mut SessionCore,
        log: &mut T::Log,
    ) -> Result<Result<Job<E, T>, NoRequest>, ServeFault>
        requires size { size_of core.old.haggling.export ≤ E.bytes }
        requires session { T.Log.session log.old ≡ E.session }
        ensures job { IfOk result (λ next. IfOk next (λ job.
            Reads core.old (Issue job.index job.task job.payload) core.new
            × IsNoted T.Target T.Log.SessionLog E.session (Comes job.index job.payload)
            log.old log.new)) }
        ensures why { IfOk result (λ next. IfErr next (λ why.
            ReadsWith (IsNoted T.Target T.Log.SessionLog E.session) (moment core.old log.old)
            (moment core.new log.new) × HasNoRequest why core.new)) }
        ensures err { IfErr result (λ fault. (fault ≡ Memory)
            × ReadsWith (IsNoted T.Target T.Log.SessionLog E.session) (moment core.old log.old)
            (moment core.new log.new)) }
    {
        let Ok(next) = core.next(alloc) else {
            return Err(ServeFault::Memory);
        };
        match next {
            Next::Issue(index, task, payload) => {
                let buffer = core.take_buffer(alloc, task);
                let asked = log.ask(index, &payload);
                Ok(Ok(Job {
                    index,
                    task,
                    payload,
                    buffer,
                    asked,
                    of: PhantomData,
                }))
            }
            Next::Starved => Ok(Err(NoRequest::Starved)),
            Next::Full => Ok(Err(NoRequest::Full)),
            Next::Ended => Ok(Err(NoRequest::Ended)),
        }
    }

    // Whether the session's owner may do it itself for a client that waits for each reply: to hand
    // it on takes longer than to read or write so much, and who waits for a sync waits for nothing
    // else.
    pub(crate) fn is_short(&self) -> bool {
        match self.task {
            Task::Read { offset: _, length } => length <= SHORT,
            Task::Write {
                offset: _,
                length,
                fua: _,
            } => length <= SHORT,
            Task::Flush => true,
            _ => false,
        }
    }

    // Its request's index, its task, its payload and its buffer, and what tells that it came.
    pub(crate) fn into_parts(self) -> (u64, Task, Bytes, Vec<u8>, T::Told)
        ensures index { result.0 ≡ self.index }
        ensures task { result.1 ≡ self.task }
        ensures payload { result.2 ≡ self.payload }
        ensures callable { IsCallable E.bytes result.1 result.2 }
        ensures has_come { T.Log.has_come E.session self.index result.2 result.4 }
    {
        let Job {
            index,
            task,
            payload,
            buffer,
            asked,
            of: _,
        } = self;
        (index, task, payload, buffer, asked)
    }
}

// The result of a job, and what tells of the calls that gave it. Only a target that was called for
// its task gives one.
#[derive(Drop)]
pub struct JobResult<E: Extent, T: Target> {
    called: Called,
    told: T::Told,
    of: PhantomData<E>,
}

impl<E: Extent, T: Target> Model for JobResult<E, T> {
    ghost use Rattle.nm_session.specs.CalledValue.{CalledValue};
    ghost use Rattle.nm_workers.specs.Results.{IsResult};

    ghost Value = { CalledValue };

    ghost view = { λ result. result.called };

    ghost invariant = { λ result.
        IsResult T.Target T.Log.SessionLog E.session result.called result.told };
}

impl<E: Extent, T: Target> JobResult<E, T> {
    ghost use Rattle.std.specs.Prelude.{◌≤◌};
    ghost use Rattle.nm_workers.specs.Results.{IsResult};
    ghost use Rattle.nm_workers.specs.Working.{HearsAndCalls};

    // Calls the target for a job, and for nothing else. It hears right before that the request
    // came, and tells then of its calls.
    pub(crate) fn of(alloc: Global, target: &mut T, job: Job<E, T>) -> JobResult<E, T>
        requires size { E.bytes ≤ T.size target.old }
        ensures index { result.index ≡ job.index }
        ensures task { result.task ≡ job.task }
        ensures calls { HearsAndCalls T.Target job.task job.payload result.outcome
            target.old target.new }
        ensures size { T.size target.new ≡ T.size target.old }
    {
        let (index, task, payload, buffer, asked) = job.into_parts();
        target.hear(asked);
        let called = call(alloc, target, index, task, payload, buffer);
        let told = target.tell();
        JobResult {
            called,
            told,
            of: PhantomData,
        }
    }

    // Takes the room that a WRITE's payload was in, if it came back.
    pub(crate) fn take_room(&mut self) -> Option<BytesMut>
        ensures { self.new ≡ self.old }
    {
        self.called.take_room()
    }

    // The request's index, its task and the outcome, and what tells of the calls.
    pub(crate) fn into_parts(self) -> (Called, T::Told)
        ensures called { result.0 ≡ self }
        ensures is_result { IsResult T.Target T.Log.SessionLog E.session self result.1 }
    {
        let JobResult {
            called,
            told,
            of: _,
        } = self;
        (called, told)
    }
}
