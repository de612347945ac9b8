ghost use Rattle.std.specs.Prelude.{◌≡◌, ◌+◌, ◌-◌, ◌*◌, ◌<◌, ◌≤◌, ◌^◌};
ghost use Rattle.nm_geometry.specs.Pieces.{touched, piece_at, bytes_before};
ghost use Rattle.nm_geometry.specs.Pieces.{start_of, stop_of, end_of};

use crate::piece::Piece;

/// Some bytes of an export, one after the other.
#[derive(Clone, Copy, Debug, PartialEq, Eq)]
pub struct ByteRange {
    /// The first of the bytes, counted in the export.
    pub offset: u64,
    /// How many bytes there are.
    pub length: u64,
}

impl ByteRange {
    /// How many pieces the range has: one for each block that it touches.
    pub fn pieces(&self) -> u64
        requires end { end_of self.now < 2 ^ 64 }
        ensures pieces { result ≡ touched self.now }
    {
        if self.length == 0 {
            return 0;
        }
        (self.offset + self.length - 1) / 512 - self.offset / 512 + 1
    }

    /// The piece of this number, counted from 0 by rising block.
    pub fn piece(&self, number: u64) -> Piece
        requires end { end_of self.now < 2 ^ 64 }
        requires number { number < touched self.now }
        ensures piece { result ≡ piece_at number self.now }
        ensures some { 0 < result.len }
        ensures in_block { result.from + result.len ≤ 512 }
        ensures starts { start_of result ≡ self.now.offset + bytes_before number self.now }
        ensures stops { stop_of result ≤ end_of self.now }
    {
        let block = self.offset / 512 + number;
        let start = block * 512;
        let from = self.offset.saturating_sub(start);
        let to = (self.offset + self.length - start).min(512);
        Piece {
            block,
            from: from as u16,
            len: (to - from) as u16,
        }
    }

    /// How many bytes of the range lie before the piece of this number.
    pub fn before(&self, number: u64) -> u64
        requires end { end_of self.now < 2 ^ 64 }
        requires number { number < touched self.now }
        ensures before { result ≡ bytes_before number self.now }
        ensures inside { result < self.now.length }
    {
        ((self.offset / 512 + number) * 512).saturating_sub(self.offset)
    }
}
