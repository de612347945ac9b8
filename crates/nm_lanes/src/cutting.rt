//! What a write puts into the runs of a range.
ghost use Rattle.std.specs.Prelude.{◌≡◌, ◌+◌, ◌<◌, ◌≤◌, ◌^◌, length, IfOk};
ghost use Rattle.nm_geometry.specs.Pieces.{end_of, touched};
ghost use Rattle.nm_lanes.specs.Cuts.{cut_for, cuts_for};
ghost use Rattle.nm_lanes.specs.PieceRanges.{bytes_of, runs_in_pieces};

use crate::piece_range::PieceRange;
use crate::run::{Run, count_runs, first_run};
use crate::run_write::RunWrite;
use bytes::Bytes;
use nm_fanout::Data;
use nm_geometry::Shape;
use nm_replay::Memory;
use std::alloc::Global;

/// These bytes, for this run.
fn cut_for(run: Run, bytes: Bytes) -> Data
    ensures cut { result ≡ cut_for run bytes }
{
    if run.is_whole() {
        Data::Cut(bytes)
    } else {
        Data::Part {
            from: run.from,
            bytes,
        }
    }
}

/// The payload, cut where the runs of the piece range end.
pub(crate) fn split_payload(
    alloc: Global,
    shape: &Shape,
    pieces: PieceRange,
    payload: Bytes,
) -> Result<Vec<RunWrite>, Memory>
    requires end { end_of pieces.range < 2 ^ 64 }
    requires inside { pieces.first + pieces.count ≤ touched pieces.range }
    requires length { length payload ≡ bytes_of pieces pieces.count }
    ensures cuts { IfOk result (λ writes.
        writes.items ≡ cuts_for (runs_in_pieces shape.now pieces) payload) }
{
    let mut writes = Vec::with_capacity(alloc, count_runs(shape, pieces))?;
    let mut rest = payload;
    let mut left = pieces;
    while left.count > 0 {
        let (run, blocks) = first_run(shape, left);
        let cut = rest.split_to(run.len as usize)?;
        let bytes = cut_for(run, cut);
        writes.push_reserved(RunWrite { run, bytes });
        left = left.rest_of(blocks);
    }
    Ok(writes)
}
