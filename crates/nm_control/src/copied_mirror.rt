//! A mirror whose legs are copied.

use crate::copy_orders::CopyOrders;
use nm_connections::Shared;
use nm_lanes::Gate;
use nm_leg::LegPart;
use nm_mirror::{Mirror, Naming};

/// A mirror whose legs are copied and compared, as an administrator orders it.
#[derive(Drop)]
pub struct CopiedMirror<'x, L: LegPart, G: Gate + Drop, J: Naming> {
    /// The mirror.
    pub mirror: &'x Mirror<L, G, J>,
    /// What an administrator wants of copies.
    pub orders: &'x CopyOrders,
    /// What the threads of its server share.
    pub shared: &'x Shared<'x>,
}
