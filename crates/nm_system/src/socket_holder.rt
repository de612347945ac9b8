//! Which process has a socket that listens. What cannot be read counts as no process.

use crate::in_use::line_of;
use crate::kernel_tables::{listens_at_path, listens_at_port, number};
use crate::system_files::{contents, ends_line, ends_name, names};
use std::alloc::{AllocError, Global};
use std::fmt;
use std::fs::File;
use std::os::unix::fs::{FileTypeExt, MetadataExt};
use std::rt::Files;

/// How many bytes the name of a process has at most.
const MOST_NAME: usize = 15;

/// A process.
#[derive(Clone, Copy)]
pub struct Process {
    // Its number.
    id: u64,
    // Its name, blanks in place of what cannot be printed and behind it.
    name: [u8; MOST_NAME],
}

impl fmt::Display for Process {
    fn fmt<W: fmt::Write>(&self, f: &mut fmt::Formatter<W>) -> fmt::Result {
        let name = self.name();
        let id = self.id;
        write!(f, "{name} (process {id})")
    }
}

impl Process {
    // The process of this number, by the name that the system has of it.
    fn named<R: Files<File = File>>(rt: &R, alloc: Global, id: u64) -> Result<Process, AllocError> {
        let text = contents(rt, alloc, &format!(in alloc; "/proc/{id}/comm")?)?;
        let mut name = [b' '; MOST_NAME];
        for (own, byte) in name.iter_mut().zip(line_of(&text)) {
            if byte.is_ascii_graphic() {
                *own = *byte;
            }
        }
        Ok(Process { id, name })
    }

    // Its name.
    fn name(&self) -> &str {
        str::from_utf8(&self.name).unwrap_or("").trim_end()
    }
}

// Whether this descriptor, of those in a process's folder, is of the socket of this number.
fn is_socket<R: Files<File = File>>(
    rt: &R,
    alloc: Global,
    folder: &str,
    descriptor: u64,
    socket: u64,
) -> Result<bool, AllocError> {
    let path = format!(in alloc; "{folder}/{descriptor}")?;
    match rt.metadata(path.as_str()) {
        Ok(found) => Ok(found.file_type().is_socket() && found.ino() == socket),
        Err(_) => Ok(false),
    }
}

// Whether this process has the socket of this number.
fn has_socket<R: Files<File = File>>(
    rt: &R,
    alloc: Global,
    id: u64,
    socket: u64,
) -> Result<bool, AllocError> {
    let folder = format!(in alloc; "/proc/{id}/fd")?;
    for name in names(rt, alloc, &folder)?.split(ends_name) {
        if let Some(descriptor) = number(name) {
            if is_socket(rt, alloc, &folder, descriptor, socket)? {
                return Ok(true);
            }
        }
    }
    Ok(false)
}

// The process that has the socket of this number.
fn holder_of<R: Files<File = File>>(
    rt: &R,
    alloc: Global,
    socket: u64,
) -> Result<Option<Process>, AllocError> {
    for name in names(rt, alloc, "/proc")?.split(ends_name) {
        if let Some(id) = number(name) {
            if has_socket(rt, alloc, id, socket)? {
                return Ok(Some(Process::named(rt, alloc, id)?));
            }
        }
    }
    Ok(None)
}

// The number of the socket that listens at this port, by this table of the system's.
fn socket_at_port<R: Files<File = File>>(
    rt: &R,
    alloc: Global,
    table: &str,
    port: &str,
) -> Result<Option<u64>, AllocError> {
    for line in contents(rt, alloc, table)?.split(ends_line) {
        if let Some(socket) = listens_at_port(line, port.as_bytes()) {
            return Ok(Some(socket));
        }
    }
    Ok(None)
}

/// The process that listens at this port over TCP.
pub fn holder_of_port<R: Files<File = File>>(
    rt: &R,
    alloc: Global,
    port: u16,
) -> Result<Option<Process>, AllocError> {
    let port = format!(in alloc; ":{port:04X}")?;
    for table in ["/proc/net/tcp", "/proc/net/tcp6"] {
        if let Some(socket) = socket_at_port(rt, alloc, table, &port)? {
            return holder_of(rt, alloc, socket);
        }
    }
    Ok(None)
}

/// The process that listens at this path, as it named it.
pub fn holder_of_path<R: Files<File = File>>(
    rt: &R,
    alloc: Global,
    path: &str,
) -> Result<Option<Process>, AllocError> {
    for line in contents(rt, alloc, "/proc/net/unix")?.split(ends_line) {
        if let Some(socket) = listens_at_path(line, path.as_bytes()) {
            return holder_of(rt, alloc, socket);
        }
    }
    Ok(None)
}
