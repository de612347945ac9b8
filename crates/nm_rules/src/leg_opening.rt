/// How a leg stands as a stripe opens by what a superblock says of it.
#[derive(Clone, Copy, PartialEq, Eq)]
pub enum LegOpening {
    /// It joins, behind in the marked spans alone.
    Partial,
    /// It joins, behind everywhere.
    Whole,
    /// It is not here: it is out, behind everywhere.
    Missing,
}
