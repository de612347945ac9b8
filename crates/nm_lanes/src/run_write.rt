use crate::run::Run;
use nm_fanout::Data;

/// What is to be put into a run.
#[derive(Drop)]
pub(crate) struct RunWrite {
    /// The run.
    pub(crate) run: Run,
    /// As many bytes as the run has.
    pub(crate) bytes: Data,
}
