//! The control port while a start compares the legs.

use crossbeam_channel::Receiver;
use nm_connections::Listener;
use nm_control::answer_meanwhile;
use nm_reports::Comparison;
use nm_starts::Meanwhile;
use std::alloc::Global;
use std::sync::Wait;
use std::time::Clock;

/// What answers on the control port before there is a mirror.
#[derive(Drop)]
pub struct ControlMeanwhile<'x> {
    /// The control port.
    pub control: &'x Listener,
}

impl<'x> Meanwhile for ControlMeanwhile<'x> {
    fn answer<R: Wait + Clock>(
        &self,
        rt: &R,
        alloc: Global,
        ended: &Receiver<()>,
        comparison: &Comparison<'_>,
    ) {
        answer_meanwhile(rt, alloc, self.control, ended, comparison);
    }
}
