//! Laws of the geometry. Each function does nothing: its contract is the law, for every shape and
//! every range of bytes.
ghost use Rattle.nm_geometry.specs.Laws.{BlocksComeBack, StripeBlocksComeBack, StripesLieInside};
ghost use Rattle.nm_geometry.specs.Laws.{StripesAddUp, EachStripeHasBlocks, BlocksRiseInStripes};
ghost use Rattle.nm_geometry.specs.Laws.{StripeRegionsLieInside};
ghost use Rattle.nm_geometry.specs.PieceLaws.{PiecesCutTheRange, NothingElseCutsTheRange};
ghost use Rattle.nm_geometry.specs.PieceLaws.{PiecesByNumber, PiecesLieInside};

/// There and back: a block of the export is a block of its stripe, and that one is it.
pub fn blocks_come_back()
    ensures { BlocksComeBack }
{}

/// Back and there: the export's block for a block of a stripe lies in that stripe, as that block.
pub fn stripe_blocks_come_back()
    ensures { StripeBlocksComeBack }
{}

/// The blocks of a stripe are those whose export's block lies in the export, and the regions of a
/// stripe those whose export's region does.
pub fn stripes_lie_inside()
    ensures blocks { StripesLieInside }
    ensures regions { StripeRegionsLieInside }
{}

/// Each stripe has a block, and all stripes together have as many as the export.
pub fn stripes_add_up()
    ensures sum { StripesAddUp }
    ensures some { EachStripeHasBlocks }
{}

/// Of two blocks of one stripe, the one that comes first in the export comes first in the stripe.
pub fn blocks_rise_in_stripes()
    ensures { BlocksRiseInStripes }
{}

/// The pieces of a range cover it in order, without a gap, one for each block and none empty; and
/// no other pieces do.
pub fn pieces_cut_the_range()
    ensures cut { PiecesCutTheRange }
    ensures alone { NothingElseCutsTheRange }
    ensures by_number { PiecesByNumber }
{}

/// The pieces of a range inside the export are of blocks of the export.
pub fn pieces_lie_inside()
    ensures { PiecesLieInside }
{}
