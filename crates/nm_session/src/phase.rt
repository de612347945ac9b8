/// How far a session is.
#[derive(Clone, Copy, Debug, PartialEq, Eq)]
pub enum Phase {
    /// The client and the server agree on the export.
    Haggling,
    /// Requests are read and answered.
    Serving,
    /// Nothing more is read, and requests are outstanding.
    Draining,
    /// Nothing more is read, and no request is outstanding.
    Closed,
}
