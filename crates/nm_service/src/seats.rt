ghost use Rattle.nm_service.specs.Seating.{PicksIdleLongest};

/// A place in which a connection of the control port is served.
#[derive(Clone, Copy, PartialEq, Eq)]
pub enum Seat {
    /// Nobody has it.
    Free,
    /// Its connection has asked for nothing since this turn.
    Idle(u64),
    /// A line of its connection is being done.
    Busy,
    /// Its connection is being closed, to make room for another.
    Leaving,
}

/// The seat whose connection has been idle longest, where one is idle.
pub fn idle_longest(seats: &[Seat]) -> Option<usize>
    ensures { PicksIdleLongest seats.now result }
{
    let mut found = None;
    let mut least = 0;
    for (number, seat) in seats.iter().enumerate() {
        if let Seat::Idle(turn) = *seat {
            if found.is_none() || turn < least {
                found = Some(number);
                least = turn;
            }
        }
    }
    found
}
