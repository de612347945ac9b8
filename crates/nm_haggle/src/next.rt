/// What comes after a piece.
#[derive(Clone, Copy, Debug, PartialEq, Eq)]
pub enum Next {
    /// The haggling goes on.
    More,
    /// Transmission begins.
    Transmit,
    /// The session closes.
    Close {
        /// The client asked for it by ABORT.
        aborted: bool,
    },
}
