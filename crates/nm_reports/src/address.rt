ghost use Rattle.std.specs.Prelude.{◌≡◌, ℕ, List, IfSome, IsNone};
ghost use Rattle.nm_reports.specs.Address.{IsAtPath, address_of};

use nm_commands::ListenSettings;
use std::fmt;

/// Whom a socket is for.
#[derive(Clone, Copy)]
pub enum Port {
    /// Clients.
    Clients,
    /// Who controls the server.
    Control,
}

/// Where a socket is to listen.
#[derive(Clone, Copy)]
pub enum Address<'a> {
    /// At an address and port that were named, or at `unix:` and a path.
    Named(&'a str),
    /// At this port of 127.0.0.1.
    LocalPort(u16),
}

impl<'a> Address<'a> {
    /// Where they connect: for clients a port that was named stands in place of the address.
    pub fn of(port: Port, listening: &ListenSettings<'a>) -> Address<'a>
        ensures { result ≡ address_of port listening.now }
    {
        match (port, listening.port) {
            (Port::Clients, Some(number)) => Address::LocalPort(number),
            (Port::Clients, None) => Address::Named(listening.address),
            (Port::Control, _) => Address::Named(listening.control),
        }
    }

    /// The path of the Unix socket that this names, if it names one.
    pub fn unix_path(&self) -> Option<&'a str>
        ensures some { IfSome result (λ path. IsAtPath self.now path.now) }
        ensures none { IsNone result → (path : List ℕ) → IsAtPath self.now path → ⊥ }
    {
        match *self {
            Address::Named(text) => text.strip_prefix("unix:"),
            Address::LocalPort(_) => None,
        }
    }
}

impl fmt::Display for Address<'_> {
    fn fmt<W: fmt::Write>(&self, f: &mut fmt::Formatter<W>) -> fmt::Result {
        match self {
            Address::Named(address) => f.write_str(address),
            Address::LocalPort(port) => write!(f, "127.0.0.1:{port}"),
        }
    }
}
