/// What the client is to send next.
#[derive(Clone, Copy)]
pub(crate) enum Phase {
    /// Its flags.
    Flags,
    /// Options.
    Options {
        /// No zeroes follow the reply to EXPORT_NAME.
        no_zeroes: bool,
    },
    /// Nothing: transmission began, or the session closed.
    Over,
}
