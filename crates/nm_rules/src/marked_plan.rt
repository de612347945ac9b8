use crate::leg_opening::LegOpening;

/// How a superblock has a stripe open: its master, how each other leg stands, and the marks. How
/// the master stands is not looked at.
#[derive(Clone, Copy)]
pub struct MarkedPlan<'p> {
    /// The master.
    pub master: u8,
    /// How each leg stands.
    pub others: &'p [LegOpening],
    /// Of each span whether it is marked: one past the end is not.
    pub marked: &'p [bool],
    /// How many regions a span has.
    pub span: u64,
}
