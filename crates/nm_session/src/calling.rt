ghost use Rattle.std.specs.Prelude.{◌≡◌, ◌≢◌, ◌+◌, ◌-◌, ◌≤◌, [], ◌∷◌, drop, length, vec_len, IfErr};
ghost use Rattle.nm_requests.specs.declared.task.Task.TheVariants.{Read, Write, Zero, Flush};
ghost use Rattle.nm_session.specs.Outcome.{says, Fits};
ghost use Rattle.nm_session.specs.Calling.{IsCallable, Calls};
ghost use Rattle.nm_session.specs.Calling as calling;
ghost use Rattle.nm_session.specs.Target.{Reads};

use crate::called::Called;
use crate::outcome::Outcome;
use crate::payload_room::{hold, room_of};
use crate::target::Target;
use crate::target_fault::TargetFault;
use bytes::Bytes;
use nm_replies::ReadFrame;
use nm_requests::Task;
use nm_wire::errors::ENOMEM;
use std::alloc::Global;

/// Calls the target for the task of the request with this index.
///
/// A READ is read into the buffer that was used before, or into a new one where that is too small;
/// where it is refused the target is not called, and the outcome is ENOMEM. After a WRITE or a
/// zeroing that succeeded and is to be durable, `sync_touched` is called for the same bytes, and
/// its answer is the outcome. The room of a long payload comes back with it, if nobody has the
/// payload any more.
pub fn call<T: Target>(
    alloc: Global,
    target: &mut T,
    index: u64,
    task: Task,
    payload: Bytes,
    used: Vec<u8>,
) -> Called
    requires { IsCallable (T.size target.old) task payload }
    ensures index { result.index ≡ index }
    ensures task { result.task ≡ task }
    ensures calls { Calls task payload result.outcome
        (λ calls. T.follows target.old calls target.new) }
    ensures size { T.size target.new ≡ T.size target.old }
{
    match task {
        Task::Read { offset, length } => {
            Called::new(index, task, read(alloc, target, offset, length, used))
        }
        Task::Write {
            offset,
            length,
            fua,
        } => {
            let held = hold(&payload);
            let outcome = write(target, offset, length, fua, payload);
            Called::with_room(index, task, outcome, room_of(held))
        }
        Task::Zero {
            offset,
            length,
            fua,
        } => { Called::new(index, task, zero(target, offset, length, fua)) }
        _ => Called::new(index, task, flush(target)),
    }
}

// Reads so many bytes into this buffer, or another one, behind the room for its reply's header.
fn read<T: Target>(
    alloc: Global,
    target: &mut T,
    offset: u64,
    length: u32,
    used: Vec<u8>,
) -> Outcome
    requires { offset + length ≤ T.size target.old }
    ensures calls { Calls (Read offset length) [] (says result)
        (λ calls. T.follows target.old calls target.new) }
    ensures fits { Fits (Read offset length) result }
    ensures size { T.size target.new ≡ T.size target.old }
{
    let Ok(mut buffer) = ReadFrame::buffer(alloc, used, length) else {
        return Outcome::Error(ENOMEM);
    };
    match read_behind_header(target, offset, &mut buffer) {
        Ok(()) => Outcome::Data(ReadFrame::of(buffer)),
        Err(fault) => Outcome::Error(fault.error()),
    }
}

// Reads into what is behind the header's room.
fn read_behind_header<T: Target>(
    target: &mut T,
    offset: u64,
    whole: &mut Vec<u8>,
) -> Result<(), TargetFault>
    requires room { 16 ≤ vec_len whole.old }
    requires inside { offset + (vec_len whole.old - 16) ≤ T.size target.old }
    ensures call { T.follows target.old (Reads offset (drop 16 whole.new.items) result ∷ [])
        target.new }
    ensures len { length (drop 16 whole.new.items) + 16 ≡ vec_len whole.old }
    ensures room { 16 ≤ vec_len whole.new }
    ensures size { T.size target.new ≡ T.size target.old }
{
    target.read(offset, &mut whole[ReadFrame::HEADER..])
}

// Writes the payload and, where it is to be durable, makes it so.
fn write<T: Target>(target: &mut T, offset: u64, length: u32, fua: bool, payload: Bytes) -> Outcome
    requires { IsCallable (T.size target.old) (Write offset length fua) payload }
    ensures calls { Calls (Write offset length fua) payload (says result)
        (λ calls. T.follows target.old calls target.new) }
    ensures fits { Fits (Write offset length fua) result }
    ensures size { T.size target.new ≡ T.size target.old }
{
    if let Err(fault) = target.write(offset, payload) {
        return Outcome::Error(fault.error());
    }
    if !fua {
        return Outcome::Done;
    }
    outcome_of(target.sync_touched(offset, u64::from(length)))
}

// Writes zeroes to so many bytes and, where they are to be durable, makes them so.
fn zero<T: Target>(target: &mut T, offset: u64, count: u32, fua: bool) -> Outcome
    requires { offset + count ≤ T.size target.old }
    ensures calls { Calls (Zero offset count fua) [] (says result)
        (λ calls. T.follows target.old calls target.new) }
    ensures fits { Fits (Zero offset count fua) result }
    ensures size { T.size target.new ≡ T.size target.old }
{
    if let Err(fault) = target.zero(offset, u64::from(count)) {
        return Outcome::Error(fault.error());
    }
    if !fua {
        return Outcome::Done;
    }
    outcome_of(target.sync_touched(offset, u64::from(count)))
}

// Makes durable what was written before.
fn flush<T: Target>(target: &mut T) -> Outcome
    ensures calls { Calls Flush [] (says result) (λ calls. T.follows target.old calls target.new) }
    ensures fits { Fits Flush result }
    ensures size { T.size target.new ≡ T.size target.old }
{
    outcome_of(target.flush())
}

// What comes of a call that gives no bytes.
fn outcome_of(answer: Result<(), TargetFault>) -> Outcome
    ensures says { says result ≡ calling.outcome_of answer }
    ensures fits { IfErr (says result) (λ code. code ≢ 0) }
{
    match answer {
        Ok(()) => Outcome::Done,
        Err(fault) => Outcome::Error(fault.error()),
    }
}
