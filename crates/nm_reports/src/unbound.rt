use nm_system::Process;
use std::io;

/// Why no socket listens at an address.
#[derive(Clone, Copy)]
pub enum Unbound {
    /// The system does not let it.
    System(io::Error),
    /// It is a port alone.
    NoAddress,
    /// It has no port.
    NoPort,
    /// No path stands behind `unix:`.
    NoPath,
    /// At the path is a file that is no socket.
    NoSocket,
    /// Clients connect there.
    OfClients,
    /// Somebody listens there: this process, where the system tells which.
    Taken(Option<Process>),
}

impl From<io::Error> for Unbound {
    fn from(error: io::Error) -> Self {
        Unbound::System(error)
    }
}
