//! What the threads share while the server serves.

use crate::control_places::ControlPlaces;
use crate::ending::Ending;
use crate::listener::Listener;
use crate::session_places::SessionPlaces;
use crate::session_rules::SessionRules;
use nm_replay::Memory;
use nm_reports::{LogLines, Metrics, ServerInfo, UnreadList};
use std::alloc::Global;
use std::sync::atomic::AtomicBool;
use std::time::Clock;

/// The state of a server: whom it serves, what it tells of itself, and whether it is to end.
#[derive(Drop)]
pub struct ServingState {
    /// The places of sessions.
    pub places: SessionPlaces,
    /// The places of control connections.
    pub seats: ControlPlaces,
    /// What could not be read.
    pub unread: UnreadList,
    /// Since when it serves, and how its superblocks stand.
    pub info: ServerInfo,
    /// What is counted.
    pub metrics: Metrics,
    /// Whether it is to end.
    pub ending: Ending,
    /// Set once the last session has ended.
    pub has_ended: AtomicBool,
}

impl ServingState {
    /// It serves nobody yet: so many sessions at most, of which these rules hold, counted here.
    pub fn new<R: Clock>(
        rt: &R,
        alloc: Global,
        sessions: usize,
        rules: SessionRules,
        metrics: Metrics,
    ) -> Result<ServingState, Memory> {
        let Ok(unread) = UnreadList::new(alloc) else {
            return Err(Memory);
        };
        Ok(ServingState {
            places: SessionPlaces::new(rt, alloc, sessions, rules)?,
            seats: ControlPlaces::new(alloc)?,
            unread,
            info: ServerInfo::from_now(rt),
            metrics,
            ending: Ending::new(),
            has_ended: AtomicBool::new(false),
        })
    }
}

/// What each thread of a server that serves may use.
#[derive(Drop)]
pub struct Shared<'x> {
    /// Where memory comes from.
    pub alloc: Global,
    /// Where clients connect.
    pub clients: &'x Listener,
    /// Where the control port is.
    pub control: &'x Listener,
    /// What is logged.
    pub lines: &'x LogLines,
    /// Its state.
    pub state: &'x ServingState,
}

impl<'x> Shared<'x> {
    /// What the threads of this server may use.
    pub fn new(
        alloc: Global,
        clients: &'x Listener,
        control: &'x Listener,
        lines: &'x LogLines,
        state: &'x ServingState,
    ) -> Shared<'x> {
        Shared {
            alloc,
            clients,
            control,
            lines,
            state,
        }
    }
}
