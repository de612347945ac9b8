use crate::start::Start;
use crate::superblock_place::SuperblockPlace;

/// How the mirror is opened at the start, and by which superblocks.
#[derive(Drop)]
pub struct OpeningSettings<'a> {
    /// The leg with the newest contents, where one was named.
    pub master: Option<u8>,
    /// How the other legs stand at the start.
    pub start: Start,
    /// Where the legs' superblocks are.
    pub superblock: SuperblockPlace<'a>,
    /// Whether the words say so.
    pub names_superblock: bool,
    /// Where they are taken from, where that was named: they were kept there so far.
    pub superblock_from: Option<SuperblockPlace<'a>>,
    /// Whether the server starts though a leg that is not there may be newer.
    pub degraded: bool,
    /// The leg with the newest contents, whatever superblocks say, where one was named.
    pub force_master: Option<u8>,
    /// The legs that superblocks need not know: each is a number.
    pub added: Vec<&'a str>,
    /// The legs that were moved with their superblocks: each is a number.
    pub moved: Vec<&'a str>,
    /// Whether what legs have in their last 64 KiB may go for superblocks inside them.
    pub shrink: bool,
}
