//! Writes that are shut out of the legs while a flush has their files synced.

use crate::mirror::Mirror;
use nm_book::Naming;
use nm_lanes::Gate;
use nm_leg::LegPart;
use std::sync::{MutexGuard, Wait};

impl<L: LegPart, G: Gate + Drop, J: Naming> Mirror<L, G, J> {
    /// Whether something was written in a stripe since its last sync began.
    pub fn has_unsynced(&self) -> bool {
        self.locks.iter().any(|lock| lock.is_unsynced())
    }

    /// Waits for its turn, shuts writes of calls out of every stripe's legs, and returns once those
    /// under way are done. Until `let_in_writes` they wait, and hold no stripe meanwhile; reads go
    /// on.
    pub fn shut_out_writes<R: Wait>(&self, rt: &R) -> MutexGuard<'_, ()> {
        let turn = self.shutting.lock(rt);
        for lock in &self.locks {
            lock.shut_door(rt);
        }
        turn
    }

    /// Lets writes in again, and ends the turn.
    pub fn let_in_writes<R: Wait>(&self, rt: &R, turn: MutexGuard<'_, ()>) {
        for lock in &self.locks {
            lock.open_door(rt);
        }
        drop(turn);
    }
}
