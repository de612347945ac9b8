ghost use Rattle.std.specs.Prelude.{◌≡◌};

use crate::outcome::Outcome;
use bytes::BytesMut;
use nm_requests::Task;
use std::marker::Model;

/// What came of a task that was called for, with the index of its request. Only `call` makes one.
/// That of a WRITE may have the room that the payload was in.
#[derive(Drop)]
pub struct Called {
    index: u64,
    task: Task,
    outcome: Outcome,
    room: Option<BytesMut>,
}

impl Model for Called {
    ghost use Rattle.nm_session.specs.CalledValue.{CalledValue, called_value};
    ghost use Rattle.nm_session.specs.Outcome.{Fits};

    ghost Value = { CalledValue };

    ghost view = { called_value };

    ghost invariant = { λ called. Fits called.task called.outcome };
}

impl Called {
    ghost use Rattle.nm_session.specs.Outcome.{Fits, says};

    // What came of a task that was called for.
    pub(crate) fn new(index: u64, task: Task, outcome: Outcome) -> Called
        requires { Fits task outcome }
        ensures { result ≡ record { index = index; task = task; outcome = says outcome } }
    {
        Called::with_room(index, task, outcome, None)
    }

    // What came of a task that was called for, with this room.
    pub(crate) fn with_room(
        index: u64,
        task: Task,
        outcome: Outcome,
        room: Option<BytesMut>,
    ) -> Called
        requires { Fits task outcome }
        ensures { result ≡ record { index = index; task = task; outcome = says outcome } }
    {
        Called {
            index,
            task,
            outcome,
            room,
        }
    }

    /// Takes the room that a WRITE's payload was in, if nobody else has any of it: the next payload
    /// may be read into it.
    pub fn take_room(&mut self) -> Option<BytesMut>
        ensures { self.new ≡ self.old }
    {
        self.room.take()
    }

    /// The request's index.
    pub fn index(&self) -> u64
        ensures { result ≡ self.now.index }
    {
        self.index
    }

    /// The request's task.
    pub fn task(&self) -> Task
        ensures { result ≡ self.now.task }
    {
        self.task
    }

    /// What came of the task; it fits the task.
    pub fn into_outcome(self) -> Outcome
        ensures says { says result ≡ self.outcome }
        ensures fits { Fits self.task result }
    {
        let Called {
            index: _,
            task: _,
            outcome,
            room: _,
        } = self;
        outcome
    }
}
