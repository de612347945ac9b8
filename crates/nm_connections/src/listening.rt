//! The sockets of clients and of the control port, from their start to their end.

use crate::listener::Listener;
use crate::socket_file::{SocketFile, bind_at};
use nm_commands::ListenSettings;
use nm_reports::{Address, Port, StartFault, Unbound};
use nm_system::holder_of_port;
use std::alloc::{AllocError, Global};
use std::fs::File;
use std::io;
use std::io::Write;
use std::net::{IpAddr, Net, SocketAddr, TcpListener, TcpStream};
use std::rt::Files;
use std::sync::Wait;
use std::time::Clock;

/// The system's number for an address that is in use.
const ADDRESS_IN_USE: i32 = 98;

/// A socket that listens where it was asked for. The file of a Unix socket is removed with it.
#[derive(Drop)]
pub struct Listening<'a, 'p, R: Files<File = File> + Clock + Wait> {
    // Dropped first: as long as the socket is there, no other file has the same number.
    file: Option<SocketFile<'a, 'p, R>>,
    /// The socket itself.
    pub listener: Listener,
    address: Address<'p>,
}

// Why no socket listens at this address over TCP, of which the system says this.
fn unbound_at<R: Files<File = File>>(
    rt: &R,
    alloc: Global,
    text: &str,
    error: io::Error,
) -> Unbound {
    if error.raw_os_error() == Some(ADDRESS_IN_USE) {
        let holder = match text.parse::<SocketAddr>() {
            Ok(address) => holder_of_port(rt, alloc, address.port()).unwrap_or(None),
            Err(_) => None,
        };
        return Unbound::Taken(holder);
    }
    if text.parse::<u16>().is_ok() {
        Unbound::NoAddress
    } else if text.parse::<IpAddr>().is_ok() {
        Unbound::NoPort
    } else {
        Unbound::System(error)
    }
}

// A Unix socket that listens at this path, which the address names.
fn listen_at<'a, 'p, R>(
    rt: &'a R,
    alloc: Global,
    address: Address<'p>,
    path: &'p str,
) -> Result<Listening<'a, 'p, R>, Unbound>
where
    R: Files<File = File> + Clock + Wait + Net<Listener = TcpListener, Stream = TcpStream>,
{
    let (file, listener) = bind_at(rt, alloc, path)?;
    Ok(Listening {
        file: Some(file),
        listener: Listener::Unix(listener),
        address,
    })
}

/// A socket that listens where this one is to.
pub fn listen<'a, 'p, R>(
    rt: &'a R,
    alloc: Global,
    port: Port,
    listening: &ListenSettings<'p>,
) -> Result<Listening<'a, 'p, R>, StartFault>
where
    R: Files<File = File> + Clock + Wait + Net<Listener = TcpListener, Stream = TcpStream>,
{
    let address = Address::of(port, listening);
    if let Some(path) = address.unix_path() {
        return match listen_at(rt, alloc, address, path) {
            Ok(own) => Ok(own),
            Err(why) => Err(StartFault::CannotListen(port, why)),
        };
    }
    let text = format!(in alloc; "{address}")?;
    match TcpListener::bind(rt, text.as_str()) {
        Ok(listener) => Ok(Listening {
            file: None,
            listener: Listener::Tcp(listener),
            address,
        }),
        Err(error) => {
            let why = unbound_at(rt, alloc, text.as_str(), error);
            Err(StartFault::CannotListen(port, why))
        }
    }
}

/// The control port's socket, beside that of clients.
pub fn listen_beside<'a, 'p, R>(
    rt: &'a R,
    alloc: Global,
    listening: &ListenSettings<'p>,
    clients: &Listening<'_, '_, R>,
) -> Result<Listening<'a, 'p, R>, StartFault>
where
    R: Files<File = File> + Clock + Wait + Net<Listener = TcpListener, Stream = TcpStream>,
{
    let own = listen(rt, alloc, Port::Control, listening);
    if let Err(StartFault::CannotListen(_, Unbound::Taken(_))) = &own {
        let address = Address::of(Port::Control, listening);
        if is_same(alloc, address, clients.address)? {
            return Err(StartFault::CannotListen(Port::Control, Unbound::OfClients));
        }
    }
    own
}

// Whether two addresses are written alike.
fn is_same(alloc: Global, one: Address<'_>, other: Address<'_>) -> Result<bool, AllocError> {
    let text = format!(in alloc; "{one}")?;
    Ok(text == format!(in alloc; "{other}")?)
}

impl<R: Files<File = File> + Clock + Wait> Listening<'_, '_, R> {
    // The address that a socket over TCP got, where the system tells it.
    fn bound(&self) -> Option<SocketAddr> {
        match &self.listener {
            Listener::Tcp(listener) => listener.local_addr().ok(),
            Listener::Unix(_) => None,
        }
    }

    /// Tells where the socket listens, with the port that it got where any was asked for.
    pub fn tell<O: Write>(&self, out: &mut O, words: &str) {
        let asked = self.address;
        let _ = match self.bound() {
            Some(address) => writeln!(out, "{words} {address}"),
            None => writeln!(out, "{words} {asked}"),
        };
        let _ = out.flush();
    }
}
