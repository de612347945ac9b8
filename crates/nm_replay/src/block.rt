/// How many bytes a block has.
pub const BLOCK_BYTES: usize = 512;

/// The bytes of one block, the unit in which an array is read and written.
///
/// Lend it, as `&Block` or `&mut Block`: a copy moves all 512 bytes.
#[derive(Clone, Copy, Debug, PartialEq, Eq)]
pub struct Block(pub [u8; BLOCK_BYTES]);

impl Block {
    /// A block of zero bytes.
    pub const ZERO: Block = Block([0; BLOCK_BYTES]);
}
