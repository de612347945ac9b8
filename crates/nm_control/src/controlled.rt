//! What the control port's commands tell of and change.

use crate::copy_orders::CopyOrders;
use crate::replacing::RenewsLegs;
use nm_connections::SessionPlaces;
use nm_lanes::Gate;
use nm_leg::LegPart;
use nm_leg_files::MakesLegs;
use nm_mirror::{Mirror, Naming};
use nm_reports::{Metrics, ServerInfo, UnreadList};

/// What the control port's commands tell of and change: the mirror, the name of its export, and
/// what the server knows beside it.
#[derive(Drop)]
pub struct Controlled<
    'x,
    L: LegPart,
    G: Gate + Drop,
    J: Naming,
    N: RenewsLegs<L>,
    M: MakesLegs<L>,
> {
    pub mirror: &'x Mirror<L, G, J>,
    pub name: &'x str,
    pub unread: &'x UnreadList,
    pub sessions: &'x SessionPlaces,
    pub info: &'x ServerInfo,
    pub metrics: &'x Metrics,
    pub orders: &'x CopyOrders,
    pub legs: &'x N,
    pub maker: &'x M,
}
