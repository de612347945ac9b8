//! A socket that listens, over TCP or at a path.

use crate::stream::{Peer, Stream};
use libc::net::{SHUT_RDWR, shutdown};
use std::net::{IpAddr, Ipv4Addr, Ipv6Addr, Net, SocketAddr, TcpListener, TcpStream};
use std::os::fd::AsRawFd;
use std::os::unix::net::UnixListener;
use std::sync::Wait;
use std::time::{Clock, Duration};
use std::{io, thread};

/// How many milliseconds pass after a call that failed.
const AFTER_FAILURE_MILLISECONDS: u64 = 100;

/// A socket that listens, over TCP or at a path.
#[derive(Drop)]
pub enum Listener {
    /// At an address and port.
    Tcp(TcpListener),
    /// At a path.
    Unix(UnixListener),
}

// Where the server's own listener is reached.
fn own_address(listener: &TcpListener) -> Option<SocketAddr> {
    let address = listener.local_addr().ok()?;
    let ip = match address.ip() {
        IpAddr::V4(ip) if ip.is_unspecified() => IpAddr::V4(Ipv4Addr::LOCALHOST),
        IpAddr::V6(ip) if ip.is_unspecified() => IpAddr::V6(Ipv6Addr::LOCALHOST),
        ip => ip,
    };
    Some(SocketAddr::new(ip, address.port()))
}

impl Listener {
    /// Waits for a connection, and tells where it comes from.
    pub fn accept(&self) -> io::Result<(Stream, Peer)> {
        match self {
            Listener::Tcp(listener) => {
                let (stream, address) = listener.accept()?;
                Ok((Stream::Tcp(stream), Peer::Inet(address)))
            }
            Listener::Unix(listener) => {
                let (stream, _) = listener.accept()?;
                Ok((Stream::Unix(stream), Peer::Unix))
            }
        }
    }

    /// Whether an accept that would wait fails instead.
    pub fn set_nonblocking(&self, nonblocking: bool) -> io::Result<()> {
        match self {
            Listener::Tcp(listener) => listener.set_nonblocking(nonblocking),
            Listener::Unix(listener) => listener.set_nonblocking(nonblocking),
        }
    }

    /// Whether only this machine reaches the socket.
    pub fn is_local(&self) -> bool {
        match self {
            Listener::Tcp(listener) => {
                matches!(listener.local_addr(), Ok(address) if address.ip().is_loopback())
            }
            Listener::Unix(_) => true,
        }
    }

    /// Wakes the thread that accepts connections, so that it sees that the server ends: by a
    /// connection over TCP. At a path it takes no more connections, and needs no file there.
    pub fn wake<R: Wait + Clock + Net<Listener = TcpListener, Stream = TcpStream>>(&self, rt: &R) {
        let listener = match self {
            Listener::Tcp(listener) => listener,
            Listener::Unix(listener) => {
                let _ = shutdown(listener.as_raw_fd(), SHUT_RDWR);
                return;
            }
        };
        for _ in rt.forever() {
            if let Some(address) = own_address(listener) {
                if TcpStream::connect(rt, address).is_ok() {
                    return;
                }
            }
            thread::sleep(rt, Duration::from_millis(AFTER_FAILURE_MILLISECONDS));
        }
    }
}
