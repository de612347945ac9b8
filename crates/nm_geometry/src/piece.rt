ghost use Rattle.std.specs.Prelude.{◌↔◌, IsTrue};
ghost use Rattle.nm_geometry.specs.Pieces.{IsWhole};

/// Some bytes of one block, one after the other.
#[derive(Clone, Copy, Debug, PartialEq, Eq)]
pub struct Piece {
    /// The block of the export.
    pub block: u64,
    /// The first of the bytes, counted in the block.
    pub from: u16,
    /// How many bytes there are.
    pub len: u16,
}

impl Piece {
    /// Whether the piece is the whole block.
    pub fn is_whole(&self) -> bool
        ensures whole { IsTrue result ↔ IsWhole self.now }
    {
        self.from == 0 && self.len == 512
    }
}
