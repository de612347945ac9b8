ghost use Rattle.std.specs.Prelude.{◌≡◌, ◌≢◌, ◌↔◌, ◌≤◌, ◌+◌, ◌++◌, ◌⊎◌, ℕ, List, [], length};
ghost use Rattle.std.specs.Prelude.{All, vec_capacity};
ghost use Rattle.nm_requests.specs.Message.{Message};
ghost use Rattle.nm_requests.specs.Stream.{StartsWith};
ghost use Rattle.nm_wire.specs.Sizes.{max_payload};
ghost use Rattle.std.specs.Prelude.{IfOk, IfErr, IfSome, IfNone, OnOk, OnErr, IsTrue, IsFalse};
ghost use Rattle.nm_haggle.specs.Haggling.{greeting_bytes};
ghost use Rattle.nm_session.specs.Session.{session_of, phase_at, IsSettled, LacksRoom};
ghost use Rattle.nm_session.specs.Session.{HasRoom};
ghost use Rattle.nm_session.specs.Session as session;
ghost use Rattle.nm_session.specs.Feeding.{Feeds, Responds, IsEnded};
ghost use Rattle.nm_session.specs.Asking.{Answers, FitsAt};
ghost use Rattle.nm_session.specs.Reading.{Reads, ReadsOn, RepliesItself, Tells};
ghost use Rattle.nm_session.specs.declared.stage.Stage.TheVariants as stage;

use crate::buffer_pool::BufferPool;
use crate::chunks::{join, queue_outcome};
use crate::dispatch::{
    asked_by, dispatch, is_fit, is_same, judge_within, reply_length, stage_after, sum_within,
};
use crate::ended_by::{EndedBy, closed_by};
use crate::limit::Limit;
use crate::next::Next;
use crate::outcome::Outcome;
use crate::outstanding::{Outstanding, find};
use crate::phase::Phase;
use crate::refused::Refused;
use crate::stage::Stage;
use bytes::BytesMut;
use nm_haggle::Haggle;
use nm_requests::{Fault, RequestReader, Task};
use nm_wire::{Export, SimpleReply};
use std::alloc::{AllocError, Global};
use std::marker::Model;
use std::mem;

/// The server's side of one client's session: takes the client's bytes and the outcomes of its
/// requests, hands requests out to be done, and gathers the bytes that go to the client.
///
/// Up to 16 requests are outstanding at once, and they are answered in any order. A request that
/// was read is only taken where the replies to all that are outstanding then carry no more bytes
/// than its limit says; a READ that is longer by itself is refused.
#[derive(Drop)]
pub struct SessionCore {
    limit: Limit,
    stage: Stage,
    haggle: Haggle,
    reader: RequestReader,
    outstanding: Vec<Outstanding>,
    // How many bytes the replies to the outstanding requests carry at most.
    asked: usize,
    // The replies that gather, and behind them that of a long READ.
    out: Vec<u8>,
    long: Vec<u8>,
    spare: BufferPool,
}

impl Model for SessionCore {
    ghost use Rattle.nm_session.specs.Session.{Session};

    ghost Value = { Session };

    ghost use Rattle.nm_session.specs.CoreFields.{session_in, IsSound};

    ghost view = { session_in };

    ghost invariant = { IsSound };
}

impl SessionCore {
    /// A session over this export, which has no more outstanding than this limit, with 1 to 16
    /// requests. The greeting waits to go out. Refused for memory, the export comes back.
    pub fn new(
        alloc: Global,
        export: Export,
        limit: Limit,
    ) -> Result<SessionCore, (Refused, Export)>
        requires some { 1 ≤ limit.requests }
        requires few { limit.requests ≤ 16 }
        ensures ok { IfOk result (λ core. core ≡ session_of export limit) }
        ensures err { IfErr result (λ e. e ≡ (Refused.Memory, export)) }
    {
        match make_room(alloc, limit.requests) {
            Ok((outstanding, out)) => Ok(SessionCore {
                limit,
                stage: Stage::Haggling,
                haggle: Haggle::new(export),
                reader: RequestReader::new(),
                outstanding,
                asked: 0,
                out,
                long: Vec::new(alloc),
                spare: BufferPool::new(alloc),
            }),
            Err(_) => Err((Refused::Memory, export)),
        }
    }

    /// How many bytes of the next request have not come: 0 where its header has not.
    pub fn missing(&self) -> usize
        ensures capped { result ≤ 28 + max_payload }
        ensures missing { (message : Message) (more : List ℕ) → 28 ≤ length self.now.rest
            → StartsWith 0 (self.now.rest ++ more) message [] → result ≡ length more }
    {
        self.reader.missing()
    }

    /// Takes the next piece of what the client sends.
    pub fn feed(&mut self, alloc: Global, piece: &[u8]) -> Result<(), Refused>
        ensures ok { OnOk result (Feeds self.old piece.now self.new) }
        ensures closed { (result ≡ Err Refused.Closed) ↔ IsEnded self.old.stage }
        ensures only { IfErr result (λ e. (e ≡ Refused.Closed) ⊎ (e ≡ Refused.Memory)) }
        ensures err { OnErr result (self.new ≡ self.old) }
    {
        match self.stage {
            Stage::Haggling => self.feed_haggling(alloc, piece),
            Stage::Serving => match self.reader.feed(alloc, piece) {
                Ok(()) => Ok(()),
                Err(_) => Err(Refused::Memory),
            },
            Stage::Ended(_) => Err(Refused::Closed),
        }
    }

    /// Takes the next piece of what the client sends with its memory: past the haggling the bytes
    /// of a long one are not copied where nothing is unread, or no more than a request's header.
    pub fn take_piece(&mut self, alloc: Global, piece: &mut BytesMut) -> Result<(), Refused>
        ensures ok { OnOk result (Feeds self.old piece.old.items self.new) }
        ensures closed { (result ≡ Err Refused.Closed) ↔ IsEnded self.old.stage }
        ensures only { IfErr result (λ e. (e ≡ Refused.Closed) ⊎ (e ≡ Refused.Memory)) }
        ensures err { OnErr result (self.new ≡ self.old) }
    {
        match self.stage {
            Stage::Haggling => self.feed_haggling(alloc, piece.as_slice()),
            Stage::Serving => match self.reader.take_piece(alloc, piece) {
                Ok(()) => Ok(()),
                Err(_) => Err(Refused::Memory),
            },
            Stage::Ended(_) => Err(Refused::Closed),
        }
    }

    // Takes a piece that begins with bytes of the haggling.
    fn feed_haggling(&mut self, alloc: Global, piece: &[u8]) -> Result<(), Refused>
        requires { self.old.stage ≡ stage.Haggling }
        ensures ok { OnOk result (Responds self.old piece.now self.new) }
        ensures memory { IfErr result (λ e. e ≡ Refused.Memory) }
        ensures err { OnErr result (self.new ≡ self.old) }
    {
        nm_haggle::laws::over_after_an_end();
        // The bytes after the haggling are the reader's, so there must be room for them.
        if self.reader.reserve(alloc, piece.len()).is_err() {
            return Err(Refused::Memory);
        }
        join(&mut self.out, &mut self.long)?;
        let Ok(step) = self.haggle.feed_into(alloc, &mut self.out, piece) else {
            return Err(Refused::Memory);
        };
        match step.next {
            nm_haggle::Next::More => {}
            nm_haggle::Next::Transmit => {
                self.reader.feed(alloc, &piece[step.used..]).unwrap();
                self.stage = Stage::Serving;
            }
            nm_haggle::Next::Close { aborted } => self.stage = Stage::Ended(closed_by(aborted)),
        }
        Ok(())
    }

    /// What comes next. Requests that are refused and those that ask for nothing are replied to as
    /// they are read. Refused for memory, some of these may have been, and nothing else happened.
    pub fn next(&mut self, alloc: Global) -> Result<Next, Refused>
        ensures ok { IfOk result (λ next. Reads self.old next self.new) }
        ensures memory { IfErr result (λ e. e ≡ Refused.Memory) }
        ensures err { OnErr result (ReadsOn self.old self.new) }
    {
        loop {
            match self.read_one(alloc) {
                Ok(Some(next)) => return Ok(next),
                Ok(None) => {}
                Err(refused) => return Err(refused),
            }
        }
    }

    // Reads at most one request, and says what comes next unless it replied to it.
    fn read_one(&mut self, alloc: Global) -> Result<Option<Next>, Refused>
        ensures tells { IfOk result (λ seen. IfSome seen (λ next. Tells self.old next self.new)) }
        ensures replies { IfOk result (λ seen. IfNone seen (RepliesItself self.old self.new)) }
        ensures memory { IfErr result (λ e. e ≡ Refused.Memory) }
        ensures err { OnErr result (self.new ≡ self.old) }
    {
        match self.stage {
            Stage::Haggling => return Ok(Some(Next::Starved)),
            Stage::Ended(_) => return Ok(Some(Next::Ended)),
            Stage::Serving => {}
        }
        if self.outstanding.len() == self.limit.requests {
            return Ok(Some(Next::Full));
        }
        if self.lacks_room() {
            return Ok(Some(Next::Full));
        }
        // A request that was read cannot be put back, so there must be room for its reply.
        join(&mut self.out, &mut self.long)?;
        self.out.reserve(SimpleReply::BYTES)?;
        match self.reader.next(alloc) {
            Ok(None) => Ok(Some(Next::Starved)),
            Ok(Some(request)) => {
                let judged = judge_within(&request, self.haggle.export(), self.limit);
                let asked = sum_within(self.asked, asked_by(&judged), self.limit.bytes);
                self.asked = asked;
                self.stage = stage_after(&judged);
                Ok(dispatch(request, judged, &mut self.outstanding, &mut self.out))
            }
            Err(Fault::Memory) => Err(Refused::Memory),
            Err(Fault::Magic) => {
                self.stage = Stage::Ended(EndedBy::Protocol);
                Ok(Some(Next::Ended))
            }
            Err(Fault::TooLong) => {
                self.stage = Stage::Ended(EndedBy::Protocol);
                Ok(Some(Next::Ended))
            }
        }
    }

    // Whether the next request is a READ that has to wait for the replies to others.
    fn lacks_room(&self) -> bool
        ensures lacks { IsTrue result → LacksRoom self.now }
        ensures fits { IsFalse result → HasRoom self.now }
    {
        let bytes = self.reader.read_length() as usize;
        bytes <= self.limit.bytes && self.limit.bytes - bytes < self.asked
    }

    /// Whether the outcome is one that the task of the request with this index can have, if that
    /// request is outstanding.
    pub fn fits(&self, index: u64, outcome: &Outcome) -> bool
        ensures { IsTrue result ↔ FitsAt index outcome.now self.now.outstanding }
    {
        self.outstanding
            .iter()
            .all(|held| held.index != index || is_fit(held.task, outcome))
    }

    /// Whether this is the task of the request with this index, if that request is outstanding.
    pub fn has_task(&self, index: u64, task: Task) -> bool
        ensures { IsTrue result
            ↔ All (λ held. held.index ≡ index → held.task ≡ task) self.now.outstanding }
    {
        self.outstanding
            .iter()
            .all(|held| held.index != index || is_same(held.task, task))
    }

    /// Replies to the outstanding request with this index, by the outcome of its task. The data of
    /// a READ of 16 KiB or more are not copied unless those of another one wait to go out.
    pub fn answer(
        &mut self,
        _alloc: Global,
        index: u64,
        outcome: Outcome,
    ) -> Result<(), (Refused, Outcome)>
        requires { FitsAt index outcome self.old.outstanding }
        ensures ok { OnOk result (Answers self.old index outcome self.new) }
        ensures unknown { (result ≡ Err (Refused.UnknownIndex, outcome))
            ↔ (self.old.count ≤ index) }
        ensures twice { (result ≡ Err (Refused.Twice, outcome)) ↔ IsSettled self.old index }
        ensures back { IfErr result (λ e. e.1 ≡ outcome) }
        ensures only { IfErr result (λ e. e.0 ≢ Refused.Closed) }
        ensures err { OnErr result (self.new ≡ self.old) }
    {
        let Some(at) = find(self.outstanding.as_slice(), index) else {
            let refused = if index < self.reader.count() {
                Refused::Twice
            } else {
                Refused::UnknownIndex
            };
            return Err((refused, outcome));
        };
        let cookie = self.outstanding[at].cookie;
        if let Err(outcome) = queue_outcome(&mut self.out, &mut self.long, cookie, outcome) {
            return Err((Refused::Memory, outcome));
        }
        let held = self.outstanding.remove(at);
        self.asked -= reply_length(held.task);
        Ok(())
    }

    /// Takes the bytes that wait to go out, and leaves none; takes no memory. They lie in two
    /// chunks: the second one is the reply to a long READ, in the buffer that it was read into.
    pub fn take_out(&mut self) -> (Vec<u8>, Vec<u8>)
        ensures bytes { result.0.items ++ result.1.items ≡ self.old.out }
        ensures rest { self.new ≡ record self.old { out = [] } }
    {
        let alloc = *self.out.allocator();
        let gathered = mem::replace(&mut self.out, Vec::new(alloc));
        (gathered, mem::replace(&mut self.long, Vec::new(alloc)))
    }

    /// A buffer for this task, which `call` reads into: one that was kept, or an empty one.
    pub fn take_buffer(&mut self, alloc: Global, task: Task) -> Vec<u8>
        ensures { self.new ≡ self.old }
    {
        self.spare.take(alloc, task)
    }

    /// Keeps a buffer that was sent for READs to come, if it is long: at most 16, of 4 MiB in all.
    pub fn keep_buffer(&mut self, buffer: Vec<u8>)
        ensures { self.new ≡ self.old }
    {
        self.spare.keep(buffer);
    }

    /// How many bytes wait to go out.
    pub fn waiting(&self) -> usize
        ensures { result ≡ length self.now.out }
    {
        self.out.len() + self.long.len()
    }

    /// Whether the reply to a long READ waits. What follows it is copied behind it.
    pub fn has_long_reply(&self) -> bool {
        !self.long.is_empty()
    }

    /// How many requests were read, a DISC among them: the index that the next one gets.
    pub fn count(&self) -> u64
        ensures { result ≡ self.now.count }
    {
        self.reader.count()
    }

    /// How far the session is.
    pub fn phase(&self) -> Phase
        ensures { result ≡ phase_at self.now.stage self.now.outstanding }
    {
        match self.stage {
            Stage::Haggling => Phase::Haggling,
            Stage::Serving => Phase::Serving,
            Stage::Ended(_) if self.outstanding.is_empty() => Phase::Closed,
            Stage::Ended(_) => Phase::Draining,
        }
    }

    /// Whether no request is outstanding.
    pub fn is_idle(&self) -> bool
        ensures { IsTrue result ↔ (self.now.outstanding ≡ []) }
    {
        self.outstanding.is_empty()
    }

    /// How many requests are outstanding.
    pub fn under_way(&self) -> usize
        ensures { result ≡ length self.now.outstanding }
    {
        self.outstanding.len()
    }

    /// What ended the session, if anything did.
    pub fn ended_by(&self) -> Option<EndedBy>
        ensures { result ≡ session.ended_by self.now.stage }
    {
        match self.stage {
            Stage::Ended(by) => Some(by),
            _ => None,
        }
    }
}

// Room for so many outstanding requests, and the greeting.
fn make_room(alloc: Global, limit: usize) -> Result<(Vec<Outstanding>, Vec<u8>), AllocError>
    ensures held { IfOk result (λ room. room.0.items ≡ []) }
    ensures capacity { IfOk result (λ room. vec_capacity room.0 ≡ limit) }
    ensures out { IfOk result (λ room. room.1.items ≡ greeting_bytes) }
{
    let outstanding = Vec::with_capacity(alloc, limit)?;
    let out = Vec::from_slice(alloc, &Haggle::greeting())?;
    Ok((outstanding, out))
}
