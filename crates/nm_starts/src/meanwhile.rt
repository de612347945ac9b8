//! What is answered before there is a mirror.

use crossbeam_channel::Receiver;
use nm_reports::Comparison;
use std::alloc::Global;
use std::sync::Wait;
use std::time::Clock;

/// Who answers while the legs of a mirror are compared.
pub trait Meanwhile {
    /// Answers by how far the comparison is, until that has ended: then the sender is gone.
    fn answer<R: Wait + Clock>(
        &self,
        rt: &R,
        alloc: Global,
        ended: &Receiver<()>,
        comparison: &Comparison<'_>,
    );
}
