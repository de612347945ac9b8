/// The state of one region.
#[derive(Clone, Copy, PartialEq, Eq)]
pub enum RegionState {
    /// Nothing is under way in the region.
    Clean,
    /// A write under way lies in the region.
    Dirty,
    /// The open copy is in the region, whether or not a write under way lies in it too.
    Recovering,
}
