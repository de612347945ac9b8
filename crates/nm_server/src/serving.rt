//! Everything that is at work while the server serves.

use crate::equipment::{Equipment, Saver};
use crate::sessions::{AT_ONCE, ServedExport, see_off, serve_place, take_clients};
use nm_connections::Shared;
use nm_control::{Controlled, CopiedMirror, Copier, LegRenewer, resynchronise, serve_control};
use nm_lanes::NoGate;
use nm_leg_files::{Leg, LegMaker, OpensLegs};
use nm_mirror::{Naming, Pass};
use nm_reports::StartFault;
use std::net::{Net, TcpListener, TcpStream};
use std::sync::Wait;
use std::sync::atomic::Ordering;
use std::thread;
use std::thread::Threads;
use std::time::Clock;

/// Who copies legs, and its pass.
pub type Copying<J> = (Copier, Pass<Leg, J>);

/// What the threads of a server have in common: what sessions serve, the control port changes, and
/// the copier copies.
#[derive(Drop)]
pub struct Server<'x, 'p, O: OpensLegs, J: Naming> {
    export: &'x ServedExport<'x, 'x, J>,
    controlled: Controlled<'x, Leg, NoGate, J, LegRenewer<'p, O>, LegMaker<'p>>,
    copied: CopiedMirror<'x, Leg, NoGate, J>,
}

impl<'x, 'p, O: OpensLegs + Sync, J: Naming + Send + Sync> Server<'x, 'p, O, J> {
    /// A server of this export, whose legs are opened anew and made by these.
    pub fn new(
        shared: &'x Shared<'x>,
        export: &'x ServedExport<'x, 'x, J>,
        own: &'x Equipment,
        legs: &'x LegRenewer<'p, O>,
        maker: &'x LegMaker<'p>,
    ) -> Server<'x, 'p, O, J> {
        let (mirror, orders, state) = (export.mirror, &own.orders, shared.state);
        let controlled = Controlled {
            mirror,
            name: export.named.name(),
            unread: &state.unread,
            sessions: &state.places,
            info: &state.info,
            metrics: &state.metrics,
            orders,
            legs,
            maker,
        };
        let copied = CopiedMirror {
            mirror,
            orders,
            shared,
        };
        Server {
            export,
            controlled,
            copied,
        }
    }

    // Serves clients until the control port has heard `quit` and the last session has ended. False
    // where a thread could not be started.
    fn serve_sessions<R>(&self, rt: &R, passes: &mut [Pass<Leg, J>]) -> bool
    where
        R: Threads + Wait + Sync + Copy + Clock,
    {
        let (shared, export) = (self.copied.shared, self.export);
        let state = shared.state;
        thread::scope(thread::scope_env(), rt, |scope| {
            for (number, own) in passes.chunks_mut(AT_ONCE).enumerate() {
                let start = scope.spawn(move || serve_place(rt, shared, number, export, own));
                if start.is_err() {
                    state.places.close(rt);
                    return false;
                }
            }
            take_clients(rt, shared);
            state.places.close(rt);
            see_off(rt, &state.places, &state.ending);
            true
        })
    }

    // Serves clients as above, while a thread of each leg but the first syncs its file when that is
    // asked for. Where a thread cannot be started, who asks does so.
    fn serve_syncing<R>(&self, rt: &R, passes: &mut [Pass<Leg, J>]) -> bool
    where
        R: Threads + Wait + Sync + Copy + Clock,
    {
        let syncs = self.export.syncs;
        thread::scope(thread::scope_env(), rt, |scope| {
            for leg in 1..syncs.count() {
                if scope.spawn(move || syncs.serve(rt, leg)).is_err() {
                    break;
                }
            }
            let is_served = self.serve_sessions(rt, passes);
            syncs.close(rt);
            is_served
        })
    }

    // Serves the control port and sessions, until the last of these has ended. False where a thread
    // could not be started.
    fn serve_both<R>(&self, rt: &R, passes: &mut [Pass<Leg, J>]) -> bool
    where
        R: Threads + Wait + Sync + Copy + Clock + Net<Listener = TcpListener, Stream = TcpStream>,
    {
        let (shared, controlled) = (self.copied.shared, &self.controlled);
        let has_ended = &shared.state.has_ended;
        let is_served = thread::scope(thread::scope_env(), rt, |scope| {
            let Ok(control_port) = scope.spawn(move || serve_control(rt, shared, controlled)) else {
                return false;
            };
            let is_served = self.serve_syncing(rt, passes);
            has_ended.store(true, Ordering::SeqCst);
            shared.control.wake(rt);
            control_port.join(rt) && is_served
        });
        has_ended.store(true, Ordering::SeqCst);
        is_served
    }

    // Copies legs until all sessions have ended, and gives the pass back.
    fn copy<R: Wait + Clock>(&self, rt: &R, (copier, own): Copying<J>) -> Pass<Leg, J> {
        let (mut own, opener) = (own, self.controlled.legs.opener());
        resynchronise(rt, opener, copier, &self.copied, &mut own);
        own
    }

    // Serves until the last session has ended, while one thread copies legs, whose pass is given
    // back. None where a thread could not be started.
    fn serve_copying<R>(
        &self,
        rt: &R,
        passes: &mut [Pass<Leg, J>],
        copying: Copying<J>,
    ) -> Option<Pass<Leg, J>>
    where
        R: Threads + Wait + Sync + Copy + Clock + Net<Listener = TcpListener, Stream = TcpStream>,
    {
        thread::scope(thread::scope_env(), rt, |scope| {
            let Ok(copier) = scope.spawn(move || self.copy(rt, copying)) else {
                return None;
            };
            let is_served = self.serve_both(rt, passes);
            let own = copier.join(rt);
            if is_served { Some(own) } else { None }
        })
    }

    // Saves superblocks whenever that is wanted, until saves are closed. One that could not be done
    // is wanted again by `reopen` alone.
    fn save<R: Wait>(&self, rt: &R, saver: &Saver) {
        let (mirror, shared) = (self.copied.mirror, self.copied.shared);
        let (saves, lines) = (shared.state.info.saves(), shared.lines);
        for _ in rt.forever() {
            if !mirror.next_save(rt) {
                return;
            }
            let mut writer = saver.lock(rt);
            let _ = if mirror.tries_again(rt) {
                writer.save_again(rt, mirror, saves, lines)
            } else {
                writer.save_once(rt, mirror, saves, lines)
            };
        }
    }

    // Serves as above, while one thread saves superblocks. The last of them is saved in the end.
    fn serve_saving<R>(
        &self,
        rt: &R,
        passes: &mut [Pass<Leg, J>],
        copying: Copying<J>,
        saver: &Saver,
    ) -> Option<Pass<Leg, J>>
    where
        R: Threads + Wait + Sync + Copy + Clock + Net<Listener = TcpListener, Stream = TcpStream>,
    {
        let (mirror, shared) = (self.copied.mirror, self.copied.shared);
        let (saves, lines) = (shared.state.info.saves(), shared.lines);
        saver.lock(rt).tell_start(rt, saves, lines);
        thread::scope(thread::scope_env(), rt, |scope| {
            let Ok(saving) = scope.spawn(move || self.save(rt, saver)) else {
                return None;
            };
            let own = self.serve_copying(rt, passes, copying);
            mirror.close_saves(rt);
            saving.join(rt);
            let doubts = self.copied.orders.doubts();
            if saver.lock(rt).settle(rt, mirror, doubts, saves, lines) {
                let changed = self.controlled.legs.settled_times(rt);
                saver.lock(rt).end(rt, mirror, saves, lines, &changed);
            }
            own
        })
    }

    /// Serves until the last session has ended, while one thread copies legs and tells what happens
    /// to them, one saves superblocks where this saver does, and others serve the control port.
    /// Copies begin as they are ordered. Gives the copier's pass back.
    pub fn serve<R>(
        &self,
        rt: &R,
        passes: &mut [Pass<Leg, J>],
        copying: Copying<J>,
        saver: &Option<Saver>,
    ) -> Result<Pass<Leg, J>, StartFault>
    where
        R: Threads + Wait + Sync + Copy + Clock + Net<Listener = TcpListener, Stream = TcpStream>,
    {
        let pass = match saver {
            Some(saver) => self.serve_saving(rt, passes, copying, saver),
            None => self.serve_copying(rt, passes, copying),
        };
        pass.ok_or(StartFault::Memory)
    }
}
