ghost use Rattle.std.specs.Prelude.{◌≡◌, ◌*◌, min};
ghost use Rattle.nm_service.specs.AutoAttaching.{IsEventOf, Looks, Takes, next_due, untried};

use crate::leg_change::LegSight;

/// How many milliseconds pass before the first try.
const FIRST_WAIT: u64 = 10_000;

/// How many milliseconds pass before a try at most: an hour.
const MOST_WAIT: u64 = 3_600_000;

/// What happens to a leg that is to be attached again by itself.
#[derive(Clone, Copy, PartialEq, Eq)]
pub enum LegEvent {
    /// It is out since a call of it failed.
    OutByFault,
    /// It is out since somebody took it out.
    OutByFail,
    /// It is being copied again.
    Attached,
    /// It lacks nothing.
    InSync,
    /// Time has passed.
    Time,
}

/// When a leg is attached again by itself.
#[derive(Clone, Copy, PartialEq, Eq)]
pub enum AttachTime {
    /// Now, by the try of this number.
    Now(u64),
    /// At this time, in milliseconds.
    At(u64),
    /// Not by itself, as it stands.
    Never,
}

/// When a leg that went out by a failed call is attached again: after 10 seconds, then after twice
/// as long each time, at most an hour, until it is in sync or taken out.
#[derive(Drop)]
pub struct AutoAttach {
    wait: u64,
    tries: u64,
    due: Option<u64>,
}

/// How the leg stands, as an event. `by_hand` says whether somebody took it out.
pub fn event_of(leg: &LegSight, by_hand: bool) -> LegEvent
    ensures { IsEventOf leg.now by_hand result }
{
    if leg.out > 0 && by_hand {
        LegEvent::OutByFail
    } else if leg.out > 0 {
        LegEvent::OutByFault
    } else if leg.joining > 0 {
        LegEvent::Attached
    } else {
        LegEvent::InSync
    }
}

// The wait after one that was in vain.
fn longer(wait: u64) -> u64
    ensures { result ≡ min (2 * wait) 3600000 }
{
    if wait > MOST_WAIT / 2 {
        MOST_WAIT
    } else {
        2 * wait
    }
}

impl AutoAttach {
    /// No try was made, and none is to come.
    pub fn new() -> AutoAttach
        ensures { result ≡ untried }
    {
        AutoAttach {
            wait: FIRST_WAIT,
            tries: 0,
            due: None,
        }
    }

    /// Takes an event at this time, in milliseconds, and says when the next try is. One that is to
    /// be made now counts as made.
    pub fn take(&mut self, event: LegEvent, now: u64) -> AttachTime
        ensures { Takes event now self.old result self.new }
    {
        match event {
            LegEvent::OutByFault => {
                let due = self.next_due(now);
                self.due = Some(due);
                AttachTime::At(due)
            }
            LegEvent::Attached => {
                self.due = None;
                AttachTime::Never
            }
            LegEvent::OutByFail | LegEvent::InSync => {
                *self = AutoAttach::new();
                AttachTime::Never
            }
            LegEvent::Time => self.look(now),
        }
    }

    // When the next try is: the one that is to come, else one after the time to wait.
    fn next_due(&self, now: u64) -> u64
        ensures { result ≡ next_due self.now.due self.now.wait now }
    {
        match self.due {
            Some(due) => due,
            None => now.saturating_add(self.wait),
        }
    }

    // Makes a try where one is due at this time.
    fn look(&mut self, now: u64) -> AttachTime
        ensures { Looks self.old.due now self.old result self.new }
    {
        match self.due {
            None => AttachTime::Never,
            Some(due) if now < due => AttachTime::At(due),
            Some(_) => {
                self.due = None;
                self.tries = self.tries.saturating_add(1);
                self.wait = longer(self.wait);
                AttachTime::Now(self.tries)
            }
        }
    }
}
