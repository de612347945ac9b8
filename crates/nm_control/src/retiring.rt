//! `retire`: the last leg goes out for good, and the next start goes without its name.
ghost use Rattle.std.specs.Prelude.{◌<◌};

use crate::controlled::Controlled;
use crate::replacing::RenewsLegs;
use nm_lanes::Gate;
use nm_leg::LegPart;
use nm_leg_files::{MakesLegs, ReplaceAnswer, Unfit};
use nm_mirror::{Mirror, Naming, Withdrawal};
use std::alloc::AllocError;
use std::fmt;
use std::sync::Wait;

/// What came of a leg that was to go out for good.
#[derive(Clone, Copy)]
pub enum Retired {
    /// It is out, no superblock says otherwise, and it has none.
    Out,
    /// Nothing was done: a leg of a higher number is not out for good.
    NotHighest,
    /// Nothing was done: in some stripe the leg is the only one in sync.
    Last,
    /// Nothing was done: some stripe has stopped.
    Stopped,
    /// Nothing was done: a replacement of the leg is under way, or a call of it was left and has
    /// not returned.
    Busy,
    /// The leg is out, and no superblock can be saved that says so.
    NotSaved,
    /// The leg is out, and still has a superblock.
    Kept(Unfit),
}

impl fmt::Display for Retired {
    fn fmt<W: fmt::Write>(&self, f: &mut fmt::Formatter<W>) -> fmt::Result {
        match self {
            Retired::Out => f.write_str("out"),
            Retired::NotHighest => f.write_str("not the highest"),
            Retired::Last => f.write_str("last"),
            Retired::Stopped => f.write_str("stopped"),
            Retired::Busy => f.write_str("busy"),
            Retired::NotSaved => f.write_str("not saved"),
            Retired::Kept(why) => ReplaceAnswer(*why).fmt(f),
        }
    }
}

/// Takes the leg out of every stripe, waits until a superblock says so, and leaves none of it.
pub fn retire_now<R: Wait, L: LegPart, G: Gate + Drop, J: Naming, N: RenewsLegs<L>>(
    rt: &R,
    mirror: &Mirror<L, G, J>,
    leg: u8,
    legs: &N,
) -> Retired
    requires { leg < mirror.now.shape.legs }
{
    match mirror.withdraw_leg(rt, leg) {
        Withdrawal::Last => Retired::Last,
        Withdrawal::NotSaved => Retired::NotSaved,
        Withdrawal::Stopped(_) => Retired::Stopped,
        Withdrawal::Out => match legs.retire(rt, leg) {
            Ok(()) => Retired::Out,
            Err(why) => Retired::Kept(why),
        },
    }
}

/// Whether the leg is out for good.
pub fn is_retired<L: LegPart, G: Gate + Drop, J: Naming, N: RenewsLegs<L>, M: MakesLegs<L>>(
    server: &Controlled<'_, L, G, J, N, M>,
    leg: u8,
) -> bool {
    leg >= server.orders.kept_of(server.mirror.legs())
}

/// The answer to `retire`.
pub fn put_retire<
    R: Wait,
    L: LegPart,
    G: Gate + Drop,
    J: Naming,
    N: RenewsLegs<L>,
    M: MakesLegs<L>,
>(
    rt: &R,
    server: &Controlled<'_, L, G, J, N, M>,
    leg: u8,
    text: &mut String,
) -> Result<(), AllocError> {
    if leg >= server.mirror.legs() {
        return text.push_str("bad command\n");
    }
    if is_retired(server, leg) {
        return writeln!(text, "retire {leg}: retired");
    }
    let retired = server.orders.retire(rt, server.mirror, leg, server.legs);
    writeln!(text, "retire {leg}: {retired}")
}
