//! The file of a Unix socket, from its start to its end.

use nm_reports::Unbound;
use nm_system::holder_of_path;
use std::alloc::Global;
use std::fs::{File, TryLockError};
use std::io::ErrorKind;
use std::net::Net;
use std::os::unix::fs::{FileTypeExt, MetadataExt};
use std::os::unix::net::{UnixListener, UnixStream};
use std::rt::Files;
use std::sync::Wait;
use std::thread;
use std::time::{Clock, Duration};

/// How often it is tried to lock a folder.
const TRIES: usize = 100;

/// How many milliseconds lie between two tries.
const BETWEEN_MILLISECONDS: u64 = 20;

/// The file of a Unix socket, which is removed once this is dropped, unless another file has taken
/// its place.
pub struct SocketFile<'a, 'p, R: Files<File = File> + Clock + Wait> {
    rt: &'a R,
    path: &'p str,
    // The numbers of its file system and of itself there, where the system tells them.
    node: Option<(u64, u64)>,
}

// The folder that a path's file is in.
fn folder_of(path: &str) -> &str {
    match path.rsplit_once('/') {
        None => ".",
        Some(("", _)) => "/",
        Some((folder, _)) => folder,
    }
}

// Locks the folder of a path until the file is dropped: meanwhile nobody else looks at a socket's
// file there to remove it. So no two servers find one file stale, and none takes a fresh one for
// stale before it listens. Who keeps the folder locked holds nobody up for more than two seconds.
fn lock_folder<R: Files<File = File> + Clock + Wait>(rt: &R, path: &str) -> Option<File> {
    let folder = File::open(rt, folder_of(path)).ok()?;
    for _ in 0..TRIES {
        match folder.try_lock() {
            Err(TryLockError::WouldBlock) => {
                thread::sleep(rt, Duration::from_millis(BETWEEN_MILLISECONDS));
            }
            _ => break,
        }
    }
    Some(folder)
}

// The numbers of the file at a path.
fn node_at<R: Files>(rt: &R, path: &str) -> Option<(u64, u64)> {
    let found = rt.symlink_metadata(path).ok()?;
    Some((found.dev(), found.ino()))
}

impl<R: Files<File = File> + Clock + Wait> Drop for SocketFile<'_, '_, R> {
    fn drop(self) {
        let Self { rt, path, node } = self;
        let _locked = lock_folder(rt, path);
        if node.is_some() && node_at(rt, path) == node {
            let _ = rt.remove_file(path);
        }
    }
}

// Removes the file of this socket, unless somebody listens on it.
fn remove_unused<R: Net + Files<File = File>>(
    rt: &R,
    alloc: Global,
    path: &str,
) -> Result<(), Unbound> {
    match UnixStream::connect(rt, path) {
        Ok(_) => Err(Unbound::Taken(holder_of_path(rt, alloc, path).unwrap_or(None))),
        Err(error) if error.kind() == ErrorKind::ConnectionRefused => {
            rt.remove_file(path)?;
            Ok(())
        }
        Err(error) => Err(Unbound::System(error)),
    }
}

// Removes a socket's file on which nobody listens. Any other file stays, and is a reason not to
// listen there.
fn remove_stale<R: Net + Files<File = File>>(
    rt: &R,
    alloc: Global,
    path: &str,
) -> Result<(), Unbound> {
    let found = match rt.symlink_metadata(path) {
        Ok(found) => found,
        Err(error) if error.kind() == ErrorKind::NotFound => return Ok(()),
        Err(error) => return Err(Unbound::System(error)),
    };
    if !found.file_type().is_socket() {
        return Err(Unbound::NoSocket);
    }
    remove_unused(rt, alloc, path)
}

/// A Unix socket that listens at this path, and its file. Who may connect is up to the rights of
/// the folder and to the umask.
pub fn bind_at<'a, 'p, R: Net + Files<File = File> + Clock + Wait>(
    rt: &'a R,
    alloc: Global,
    path: &'p str,
) -> Result<(SocketFile<'a, 'p, R>, UnixListener), Unbound> {
    if path.is_empty() {
        return Err(Unbound::NoPath);
    }
    let _locked = lock_folder(rt, path);
    remove_stale(rt, alloc, path)?;
    let listener = UnixListener::bind(rt, path)?;
    let node = node_at(rt, path);
    Ok((SocketFile { rt, path, node }, listener))
}
