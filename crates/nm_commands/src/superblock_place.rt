/// Where the superblocks of the legs are.
#[derive(Clone, Copy, Debug, PartialEq, Eq)]
pub enum SuperblockPlace<'a> {
    /// There are none.
    Nowhere,
    /// Each is beside its leg.
    Beside,
    /// Each is in the last 64 KiB of its leg.
    Inside,
    /// They are in this folder.
    Folder(&'a str),
}
