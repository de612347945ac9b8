//! The control port's answers to commands that name a leg.

use crate::controlled::Controlled;
use crate::replacing::{RenewsLegs, Replaced};
use crate::retiring::{is_retired, put_retire};
use crate::verify_answers::put_verify;
use crate::whole::{put_pause, put_resume};
use nm_commands::ControlCommand;
use nm_lanes::Gate;
use nm_leg::LegPart;
use nm_leg_files::{AttachAnswer, MakesLegs, Unfit};
use nm_mirror::{AttachCounts, FailCounts, Mirror, Naming};
use std::alloc::{AllocError, Global};
use std::sync::Wait;
use std::time::{Clock, Duration};

/// How many seconds an answer waits for the superblock that says what was done to a leg.
const SAVE_SECONDS: u64 = 2;

// Ends an answer on what was done to a leg, once a superblock says so, or has not for so long.
fn put_saved<R: Wait + Clock, L: LegPart, G: Gate + Drop, J: Naming>(
    rt: &R,
    mirror: &Mirror<L, G, J>,
    text: &mut String,
) -> Result<(), AllocError> {
    let is_saved = mirror.save_within(rt, Duration::from_secs(SAVE_SECONDS));
    text.push_str(if is_saved { "\n" } else { " unsaved\n" })
}

// The answer to a command of this word that did nothing to the leg.
fn put_undone(word: &str, leg: u8, why: &str, text: &mut String) -> Result<(), AllocError> {
    writeln!(text, "{word} {leg}: {why}")
}

// Puts in how many stripes what came of a `fail`, without an end of the line.
fn put_failed(leg: u8, counts: &FailCounts, text: &mut String) -> Result<(), AllocError> {
    write!(
        text,
        "fail {leg}: failed {} last {} out {} stopped {}",
        counts.failed, counts.last, counts.out, counts.stopped
    )
}

// The answer to `fail`.
fn put_fail<
    R: Wait + Clock,
    L: LegPart,
    G: Gate + Drop,
    J: Naming,
    N: RenewsLegs<L>,
    M: MakesLegs<L>,
>(
    rt: &R,
    server: &Controlled<'_, L, G, J, N, M>,
    leg: u8,
    text: &mut String,
) -> Result<(), AllocError> {
    if leg >= server.mirror.legs() {
        return text.push_str("bad command\n");
    }
    let Some(counts) = server.orders.fail(rt, server.mirror, leg) else {
        return put_undone("fail", leg, "busy", text);
    };
    put_failed(leg, &counts, text)?;
    put_saved(rt, server.mirror, text)
}

// Looks for the file of a leg that is to be attached: why it cannot be. One that is being replaced
// is not looked for.
fn find_leg<
    R: Wait + Clock,
    L: LegPart,
    G: Gate + Drop,
    J: Naming,
    N: RenewsLegs<L>,
    M: MakesLegs<L>,
>(rt: &R, server: &Controlled<'_, L, G, J, N, M>, leg: u8) -> Result<(), Unfit> {
    if server.orders.is_replaced(rt, leg) {
        return Err(Unfit::Command);
    }
    let missing = server.orders.missing();
    if !missing.find(rt, leg) {
        return Err(missing.why_not(leg));
    }
    server.legs.check(leg)
}

// Puts in how many stripes what came of an `attach`, without an end of the line.
fn put_attached(leg: u8, counts: &AttachCounts, text: &mut String) -> Result<(), AllocError> {
    write!(
        text,
        "attach {leg}: joining {} left {} notout {} stopped {}",
        counts.joining, counts.left, counts.not_out, counts.stopped
    )
}

// The answer to `attach` of a leg whose file does not fit.
fn put_unfit(leg: u8, why: Unfit, text: &mut String) -> Result<(), AllocError> {
    writeln!(text, "attach {leg}: {}", AttachAnswer(why))
}

// The answer to `attach`.
fn put_attach<
    R: Wait + Clock,
    L: LegPart,
    G: Gate + Drop,
    J: Naming,
    N: RenewsLegs<L>,
    M: MakesLegs<L>,
>(
    rt: &R,
    server: &Controlled<'_, L, G, J, N, M>,
    leg: u8,
    text: &mut String,
) -> Result<(), AllocError> {
    if leg >= server.mirror.legs() {
        return text.push_str("bad command\n");
    }
    if is_retired(server, leg) {
        return put_undone("attach", leg, "retired", text);
    }
    if let Err(why) = find_leg(rt, server, leg) {
        return put_unfit(leg, why, text);
    }
    let Some(counts) = server.orders.attach(rt, server.mirror, leg) else {
        return put_undone("attach", leg, "busy", text);
    };
    put_attached(leg, &counts, text)?;
    put_saved(rt, server.mirror, text)
}

// The answer to `replace`.
fn put_replace<
    R: Wait + Clock,
    L: LegPart,
    G: Gate + Drop,
    J: Naming,
    N: RenewsLegs<L>,
    M: MakesLegs<L>,
>(
    rt: &R,
    server: &Controlled<'_, L, G, J, N, M>,
    leg: u8,
    text: &mut String,
) -> Result<(), AllocError> {
    if leg >= server.mirror.legs() {
        return text.push_str("bad command\n");
    }
    if is_retired(server, leg) {
        return put_undone("replace", leg, "retired", text);
    }
    let replaced = server.orders.replace(rt, server.mirror, leg, server.legs);
    write!(text, "replace {leg}: {replaced}")?;
    match replaced {
        Replaced::Done(_) => put_saved(rt, server.mirror, text),
        _ => text.push_str("\n"),
    }
}

// The leg of this number: none has 255 or more.
fn leg_of(number: u64) -> u8 {
    number.min(255) as u8
}

// The answer to a command on how a leg is copied or repaired, and to what names no leg.
fn put_of_copies<
    R: Wait + Clock,
    L: LegPart,
    G: Gate + Drop,
    J: Naming,
    N: RenewsLegs<L>,
    M: MakesLegs<L>,
>(
    rt: &R,
    alloc: Global,
    command: ControlCommand,
    server: &Controlled<'_, L, G, J, N, M>,
    text: &mut String,
) -> Result<(), AllocError> {
    match command {
        ControlCommand::Pause(leg) => put_pause(server.mirror, leg_of(leg), text),
        ControlCommand::Resume(leg) => put_resume(server.mirror, leg_of(leg), text),
        ControlCommand::VerifyRepair(leg) => put_verify(rt, alloc, server, Some(leg_of(leg)), text),
        // What is answered elsewhere, and what is no command.
        ControlCommand::Status
        | ControlCommand::Unread
        | ControlCommand::History(_)
        | ControlCommand::Info
        | ControlCommand::Metrics
        | ControlCommand::Fail(_)
        | ControlCommand::Attach(_)
        | ControlCommand::Replace(_)
        | ControlCommand::Retire(_)
        | ControlCommand::Reopen(_)
        | ControlCommand::ReopenAll
        | ControlCommand::CopyRate
        | ControlCommand::SetCopyRate(_)
        | ControlCommand::DefaultCopyRate
        | ControlCommand::Verify
        | ControlCommand::VerifyStop
        | ControlCommand::Quit
        | ControlCommand::QuitWithin(_)
        | ControlCommand::Clients
        | ControlCommand::Kick(_)
        | ControlCommand::Bad => text.push_str("bad command\n"),
    }
}

/// The answer to a command that names a leg; to any other, that it is a bad one.
pub fn put_of_leg<
    R: Wait + Clock,
    L: LegPart,
    G: Gate + Drop,
    J: Naming,
    N: RenewsLegs<L>,
    M: MakesLegs<L>,
>(
    rt: &R,
    alloc: Global,
    command: ControlCommand,
    server: &Controlled<'_, L, G, J, N, M>,
    text: &mut String,
) -> Result<(), AllocError> {
    match command {
        ControlCommand::Fail(leg) => put_fail(rt, server, leg_of(leg), text),
        ControlCommand::Attach(leg) => put_attach(rt, server, leg_of(leg), text),
        ControlCommand::Replace(leg) => put_replace(rt, server, leg_of(leg), text),
        ControlCommand::Retire(leg) => put_retire(rt, server, leg_of(leg), text),
        _ => put_of_copies(rt, alloc, command, server, text),
    }
}
