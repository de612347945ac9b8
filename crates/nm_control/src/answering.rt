//! The control port: lines in, lines out.

use crate::controlled::Controlled;
use crate::copy_orders::CopyOrders;
use crate::leg_answers::put_of_leg;
use crate::reopening::reopen;
use crate::replacing::RenewsLegs;
use crate::stopped::put_stopped;
use crate::stripe_history::put_history;
use crate::verify_answers::{put_known, put_verify, put_verify_stop};
use crate::whole::put_status;
use nm_commands::{ControlCommand, Fed, LineRoom, control_line};
use nm_connections::{Quit, SessionPlaces};
use nm_lanes::Gate;
use nm_leg::LegPart;
use nm_leg_files::MakesLegs;
use nm_mirror::Naming;
use nm_reports::{Known, put_metrics};
use std::alloc::{AllocError, Global};
use std::io;
use std::io::{Read, Write};
use std::sync::Wait;
use std::time::Clock;

/// How many bytes of a connection are read at once.
const ROOM: usize = 256;

/// What a connection does after a line.
#[derive(Clone, Copy, PartialEq, Eq)]
enum After {
    GoOn,
    Close,
    Quit(Quit),
}

// The answer to `reopen`: of this stripe, or of all.
fn put_reopen<R: Wait, L: LegPart, G: Gate + Drop, J: Naming, N: RenewsLegs<L>, M: MakesLegs<L>>(
    rt: &R,
    alloc: Global,
    server: &Controlled<'_, L, G, J, N, M>,
    stripe: Option<u32>,
    text: &mut String,
) -> Result<(), AllocError> {
    let all = server.mirror.shape().stripes;
    let stripes = match stripe {
        Some(stripe) if stripe >= all => return text.push_str("bad command\n"),
        Some(stripe) => stripe..stripe.saturating_add(1),
        None => 0..all,
    };
    let (mirror, maker) = (server.mirror, server.maker);
    let counts = reopen(rt, alloc, mirror, maker, server.orders, stripes);
    writeln!(
        text,
        "reopen: opened {} left {} stopped {}",
        counts.opened, counts.left, counts.stopped
    )
}

// The answer to `kick`.
fn put_kick<R: Wait>(
    rt: &R,
    sessions: &SessionPlaces,
    client: u64,
    text: &mut String,
) -> Result<(), AllocError> {
    if sessions.kick(rt, client) {
        writeln!(text, "kick {client}: closed")
    } else {
        text.push_str("no such client\n")
    }
}

// The answer to each form of `copy-rate`: the rate that is set by now.
fn put_copy_rate(orders: &CopyOrders, text: &mut String) -> Result<(), AllocError> {
    match orders.rate() {
        Some(mib) => writeln!(text, "copy-rate {mib}"),
        None => text.push_str("copy-rate default\n"),
    }
}

// Has legs be copied at this rate, and puts the answer.
fn set_copy_rate(
    orders: &CopyOrders,
    rate: Option<u16>,
    text: &mut String,
) -> Result<(), AllocError> {
    orders.set_rate(rate);
    put_copy_rate(orders, text)
}

// The answer to `info`.
fn put_info<
    R: Wait + Clock,
    L: LegPart,
    G: Gate + Drop,
    J: Naming,
    N: RenewsLegs<L>,
    M: MakesLegs<L>,
>(
    rt: &R,
    alloc: Global,
    server: &Controlled<'_, L, G, J, N, M>,
    text: &mut String,
) -> Result<(), AllocError> {
    server.info.put(rt, text)?;
    put_known(rt, server, text)?;
    let shape = server.mirror.shape();
    server.orders.verify().put_finding(rt, shape, text)?;
    server.orders.missing().put(text)?;
    server.orders.doubts().put_legs(rt, text)?;
    server.orders.doubts().put(text)?;
    put_stopped(rt, alloc, server.mirror, text)
}

// The answer to `metrics`.
fn put_numbers<
    R: Wait + Clock,
    L: LegPart,
    G: Gate + Drop,
    J: Naming,
    N: RenewsLegs<L>,
    M: MakesLegs<L>,
>(
    rt: &R,
    alloc: Global,
    server: &Controlled<'_, L, G, J, N, M>,
    text: &mut String,
) -> Result<(), AllocError> {
    let known = Known {
        unread: server.unread.count(rt),
        verified: server.orders.verify().verified(rt),
        info: server.info,
    };
    put_metrics(rt, alloc, server.mirror, &known, server.metrics, text)
}

// Puts the answer to a `quit`. Where there is no memory for it, the server ends all the same.
fn say_bye(quit: Quit, text: &mut String) -> After {
    let _ = text.push_str("bye\n");
    After::Quit(quit)
}

// The stripe of this number: none has 2^32 - 1 or more.
fn stripe_of(number: u64) -> u32 {
    number.min(u64::from(u32::MAX)) as u32
}

// So many MiB a second, as the rate of copies.
fn rate_of(mib: u64) -> u16 {
    mib.min(65_535) as u16
}

// The answer to a command that tells of something, or to another.
fn put_told<
    R: Wait + Clock,
    L: LegPart,
    G: Gate + Drop,
    J: Naming,
    N: RenewsLegs<L>,
    M: MakesLegs<L>,
>(
    rt: &R,
    alloc: Global,
    command: ControlCommand,
    server: &Controlled<'_, L, G, J, N, M>,
    text: &mut String,
) -> Result<(), AllocError> {
    match command {
        ControlCommand::Status => put_status(rt, alloc, server, text),
        ControlCommand::Unread => server.unread.put(rt, server.mirror.shape(), text),
        ControlCommand::History(one) => put_history(rt, alloc, server.mirror, stripe_of(one), text),
        ControlCommand::Info => put_info(rt, alloc, server, text),
        ControlCommand::Metrics => put_numbers(rt, alloc, server, text),
        ControlCommand::Clients => server.sessions.put(rt, text),
        ControlCommand::CopyRate => put_copy_rate(server.orders, text),
        _ => put_ordered(rt, alloc, command, server, text),
    }
}

// The answer to a command that orders something, or names a leg, and to what is no command.
fn put_ordered<
    R: Wait + Clock,
    L: LegPart,
    G: Gate + Drop,
    J: Naming,
    N: RenewsLegs<L>,
    M: MakesLegs<L>,
>(
    rt: &R,
    alloc: Global,
    command: ControlCommand,
    server: &Controlled<'_, L, G, J, N, M>,
    text: &mut String,
) -> Result<(), AllocError> {
    match command {
        ControlCommand::Reopen(one) => put_reopen(rt, alloc, server, Some(stripe_of(one)), text),
        ControlCommand::ReopenAll => put_reopen(rt, alloc, server, None, text),
        ControlCommand::SetCopyRate(mib) => set_copy_rate(server.orders, Some(rate_of(mib)), text),
        ControlCommand::DefaultCopyRate => set_copy_rate(server.orders, None, text),
        ControlCommand::Verify => put_verify(rt, alloc, server, None, text),
        ControlCommand::VerifyStop => put_verify_stop(rt, server.orders.verify(), text),
        ControlCommand::Kick(client) => put_kick(rt, server.sessions, client, text),
        _ => put_of_leg(rt, alloc, command, server, text),
    }
}

// Does what a line asks for, and puts the answer.
fn do_line<
    R: Wait + Clock,
    L: LegPart,
    G: Gate + Drop,
    J: Naming,
    N: RenewsLegs<L>,
    M: MakesLegs<L>,
>(
    rt: &R,
    alloc: Global,
    line: &[u8],
    server: &Controlled<'_, L, G, J, N, M>,
    text: &mut String,
) -> After {
    let put = match control_line(line) {
        ControlCommand::Quit => return say_bye(Quit::WhenTheyLeave, text),
        ControlCommand::QuitWithin(seconds) => return say_bye(Quit::Within(seconds), text),
        command => put_told(rt, alloc, command, server, text),
    };
    match put {
        Ok(()) => After::GoOn,
        Err(_) => After::Close,
    }
}

// Sends an answer. The flush tells the connection that it was sent.
fn send<O: Write>(writer: &mut O, answer: &[u8]) -> io::Result<()> {
    writer.write_all(answer)?;
    writer.flush()
}

// Takes one byte of a connection, and answers the line that it ends.
fn take_byte<
    R: Wait + Clock,
    O: Write,
    L: LegPart,
    G: Gate + Drop,
    J: Naming,
    N: RenewsLegs<L>,
    M: MakesLegs<L>,
>(
    rt: &R,
    alloc: Global,
    room: &mut LineRoom,
    byte: u8,
    writer: &mut O,
    server: &Controlled<'_, L, G, J, N, M>,
) -> After {
    match room.feed(byte) {
        Fed::More => return After::GoOn,
        Fed::TooLong => return After::Close,
        Fed::Whole => (),
    }
    let mut text = String::new(alloc);
    let after = do_line(rt, alloc, room.line(), server, &mut text);
    room.clear();
    if after == After::Close {
        return After::Close;
    }
    let sent = send(writer, text.as_bytes());
    if sent.is_err() && after == After::GoOn {
        return After::Close;
    }
    after
}

/// Serves one connection of the control port to its end, and tells how it asked the server to end,
/// if it did.
///
/// A line ends with LF and has at most 64 bytes without it. A longer one ends the connection, and
/// nothing after it is run; so do an answer that cannot be written, and no memory for one. Bytes
/// after the last LF are no line.
pub fn control<
    R: Wait + Clock,
    I: Read,
    O: Write,
    L: LegPart,
    G: Gate + Drop,
    J: Naming,
    N: RenewsLegs<L>,
    M: MakesLegs<L>,
>(
    rt: &R,
    alloc: Global,
    reader: &mut I,
    writer: &mut O,
    server: &Controlled<'_, L, G, J, N, M>,
) -> Option<Quit> {
    let mut room = LineRoom::new();
    let mut piece = [0u8; ROOM];
    for _ in rt.forever() {
        let Ok(count) = reader.read(&mut piece) else {
            return None;
        };
        if count == 0 {
            return None;
        }
        for byte in &piece[..count] {
            match take_byte(rt, alloc, &mut room, *byte, writer, server) {
                After::GoOn => (),
                After::Close => return None,
                After::Quit(quit) => return Some(quit),
            }
        }
    }
    unreachable!()
}

/// What answers control connections.
pub trait AnswersControl {
    /// Answers one connection to its end: how it asked the server to end, if it did.
    fn answer<R: Wait + Clock, I: Read, O: Write>(
        &self,
        rt: &R,
        alloc: Global,
        reader: &mut I,
        writer: &mut O,
    ) -> Option<Quit>;
}

impl<'x, L: LegPart, G: Gate + Drop, J: Naming, N: RenewsLegs<L>, M: MakesLegs<L>> AnswersControl
    for Controlled<'x, L, G, J, N, M> {
    fn answer<R: Wait + Clock, I: Read, O: Write>(
        &self,
        rt: &R,
        alloc: Global,
        reader: &mut I,
        writer: &mut O,
    ) -> Option<Quit> {
        control(rt, alloc, reader, writer, self)
    }
}
