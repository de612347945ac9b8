//! What becomes of a request once it is judged.
ghost use Rattle.std.specs.Prelude.{◌≡◌, ◌+◌, ◌<◌, ◌≤◌, ◌++◌, [], vec_len, vec_capacity};
ghost use Rattle.std.specs.Prelude.{◌↔◌, IsTrue, IfOk, IfErr, OnOk, OnErr};
ghost use Rattle.nm_session.specs.Asking as asking;
ghost use Rattle.nm_requests.specs.Judging.{LiesInside};
ghost use Rattle.nm_session.specs.Asking.{IsJudged, outstanding_for, own_reply, next_after};
ghost use Rattle.nm_replies.specs.Answer.{frame_of};
ghost use Rattle.nm_requests.specs.declared.request.Request.{Request};
ghost use Rattle.nm_session.specs.Outcome as outcome;
ghost use Rattle.nm_session.specs.Outcome.{says, reply_frame, Fits};
ghost use Rattle.nm_session.specs.Session.{bytes_asked};

use crate::ended_by::EndedBy;
use crate::limit::Limit;
use crate::next::Next;
use crate::outcome::Outcome;
use crate::outstanding::Outstanding;
use crate::stage::Stage;
use nm_replies::put_frame;
use nm_requests::{Request, Task, judge};
use nm_wire::errors::ENOMEM;
use nm_wire::{Export, Memory, SimpleReply};

// How the client's bytes are read after a request with this result.
pub(crate) fn stage_after(judged: &Result<Task, u32>) -> Stage
    ensures { result ≡ asking.stage_after judged.now }
{
    match judged {
        Ok(Task::Disconnect) => Stage::Ended(EndedBy::Disconnect),
        _ => Stage::Serving,
    }
}

// What the request asks for, or the error number of its reply, where replies may carry so much.
pub(crate) fn judge_within(request: &Request, export: &Export, limit: Limit) -> Result<Task, u32>
    ensures judged { IsJudged export.now limit request.now result }
    ensures inside { IfOk result (LiesInside request.now export.now) }
{
    refuse_long(judge(request, export), limit.bytes)
}

// What was judged, but a READ that is longer than this is refused.
fn refuse_long(judged: Result<Task, u32>, most: usize) -> Result<Task, u32>
    ensures { result ≡ asking.refuse_long most judged }
{
    match judged {
        Ok(Task::Read { length, .. }) if length as usize > most => Err(ENOMEM),
        _ => judged,
    }
}

// How many bytes the reply to a request with this result carries at most, if it has a task.
pub(crate) fn asked_by(judged: &Result<Task, u32>) -> usize
    ensures { (request : Request) → result ≡ bytes_asked (outstanding_for request judged.now) }
{
    match judged {
        Ok(task) => reply_length(*task),
        Err(_) => 0,
    }
}

// How many bytes the reply to a task carries, unless it failed.
pub(crate) fn reply_length(task: Task) -> usize
    ensures { result ≡ outcome.reply_length task }
{
    match task {
        Task::Read { length, .. } => length as usize,
        _ => 0,
    }
}

// The sum of two numbers, which is at most a third one.
pub(crate) fn sum_within(first: usize, second: usize, _most: usize) -> usize
    requires { first + second ≤ _most }
    ensures { result ≡ first + second }
{
    first + second
}

// Keeps a request that has a task for a target, and replies to one that has none. There is room
// for either.
pub(crate) fn dispatch(
    request: Request,
    judged: Result<Task, u32>,
    outstanding: &mut Vec<Outstanding>,
    out: &mut Vec<u8>,
) -> Option<Next>
    requires free { vec_len outstanding.old < vec_capacity outstanding.old }
    requires room { vec_len out.old + 16 ≤ vec_capacity out.old }
    ensures next { result ≡ next_after request judged }
    ensures outstanding { outstanding.new.items
        ≡ outstanding.old.items ++ outstanding_for request judged }
    ensures one { vec_len outstanding.new ≤ vec_len outstanding.old + 1 }
    ensures capacity { vec_capacity outstanding.new ≡ vec_capacity outstanding.old }
    ensures out { out.new.items ≡ out.old.items ++ own_reply request judged }
{
    match judged {
        Ok(Task::Nothing) => {
            put_header(out, request.cookie, 0);
            None
        }
        Ok(Task::Disconnect) => Some(Next::Ended),
        Ok(task) => {
            outstanding.push_reserved(Outstanding {
                index: request.index,
                task,
                cookie: request.cookie,
            });
            Some(Next::Issue(request.index, task, request.payload))
        }
        Err(code) => {
            put_header(out, request.cookie, code);
            None
        }
    }
}

// Whether both are the same task.
pub(crate) fn is_same(task: Task, other: Task) -> bool
    ensures { IsTrue result ↔ (task ≡ other) }
{
    task == other
}

// Whether the outcome is one that the task can have.
pub(crate) fn is_fit(task: Task, outcome: &Outcome) -> bool
    ensures { IsTrue result ↔ Fits task outcome.now }
{
    let length = reply_length(task);
    match outcome {
        Outcome::Done => length == 0,
        Outcome::Data(frame) => frame.len() == length,
        Outcome::Error(code) => *code != 0,
    }
}

// Appends the reply to a request with this outcome. Where nothing else waits, the buffer that a
// READ was read into becomes the output. Refused, the output stays and the outcome comes back.
pub(crate) fn put_outcome(out: &mut Vec<u8>, cookie: u64, outcome: Outcome) -> Result<(), Outcome>
    ensures ok { OnOk result
        (out.new.items ≡ out.old.items ++ reply_frame cookie (says outcome)) }
    ensures back { IfErr result (λ e. e ≡ outcome) }
    ensures err { OnErr result (out.new.items ≡ out.old.items) }
{
    match outcome {
        Outcome::Data(frame) if out.is_empty() => {
            *out = frame.into_frame(cookie);
            Ok(())
        }
        outcome => match copy_outcome(out, cookie, &outcome) {
            Ok(()) => Ok(()),
            Err(_) => Err(outcome),
        },
    }
}

// Appends the reply to a request with this outcome, whose data are copied. Refused, the output
// stays.
fn copy_outcome(out: &mut Vec<u8>, cookie: u64, outcome: &Outcome) -> Result<(), Memory>
    ensures ok { OnOk result
        (out.new.items ≡ out.old.items ++ reply_frame cookie (says outcome.now)) }
    ensures err { OnErr result (out.new.items ≡ out.old.items) }
{
    match outcome {
        Outcome::Done => put_frame(out, SimpleReply { error: 0, cookie }, &[]),
        Outcome::Data(frame) => put_frame(out, SimpleReply { error: 0, cookie }, frame.data()),
        Outcome::Error(code) => put_frame(
            out,
            SimpleReply {
                error: *code,
                cookie,
            },
            &[],
        ),
    }
}

// Appends a reply without data, for which there is room.
fn put_header(out: &mut Vec<u8>, cookie: u64, error: u32)
    requires { vec_len out.old + 16 ≤ vec_capacity out.old }
    ensures { out.new.items ≡ out.old.items
        ++ frame_of (record { error = error; cookie = cookie; bytes = [] }) }
{
    put_frame(out, SimpleReply { error, cookie }, &[]).unwrap();
}
