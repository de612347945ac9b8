//! Whether the system has a leg in use: mounted, swapped to, held by another device, or behind a
//! loop device.
//!
//! A device is in use where one of its partitions is, or the disk that it is a partition of. A leg
//! on a loop device is in use where the file behind it is, other than by that loop device. What
//! cannot be read counts as not in use.

use crate::kernel_tables::{device_number, mount_of, swap_of, unescaped};
use crate::system_files::{contents, contents_in, ends_line, ends_name, names};
use std::alloc::{AllocError, Global};
use std::fs::{File, Metadata};
use std::os::unix::fs::{FileTypeExt, MetadataExt};
use std::rt::Files;

/// How many loop devices are looked through that stand on one another.
const MOST_LAYERS: usize = 8;

/// A block device, or another file.
#[derive(Clone, Copy, PartialEq, Eq)]
enum Node {
    /// The device of this major and minor number.
    Device(u64, u64),
    /// The file of this number in the file system on the device of that number.
    File(u64, u64),
}

/// The major and the minor number of a device.
pub fn device_of(device: u64) -> (u64, u64) {
    let major = (device >> 8) & 0xfff | (device >> 32) & 0xffff_f000;
    let minor = device & 0xff | (device >> 12) & 0xffff_ff00;
    (major, minor)
}

/// The system's folder of the device of this major and minor number.
pub fn device_folder(alloc: Global, major: u64, minor: u64) -> Result<String, AllocError> {
    format!(in alloc; "/sys/dev/block/{major}:{minor}")
}

// What the metadata are of.
fn node_of(metadata: &Metadata) -> Node {
    if metadata.file_type().is_block_device() {
        let (major, minor) = device_of(metadata.rdev());
        Node::Device(major, minor)
    } else {
        Node::File(metadata.dev(), metadata.ino())
    }
}

/// The text of bytes, without the line's end.
pub fn line_of(bytes: &[u8]) -> &[u8] {
    match bytes {
        [line @ .., b'\n'] => line,
        line => line,
    }
}

// A leg's device with its partitions, or the disk that it is a partition of; or its file alone.
#[derive(Drop)]
struct Storage {
    nodes: Vec<Node>,
}

impl Storage {
    // What belongs to the device, or the file alone.
    fn of<R: Files<File = File>>(rt: &R, alloc: Global, node: Node) -> Result<Storage, AllocError> {
        let mut nodes = Vec::new(alloc);
        nodes.push(node)?;
        let mut storage = Storage { nodes };
        if let Node::Device(major, minor) = node {
            storage.add_related(rt, alloc, &device_folder(alloc, major, minor)?)?;
        }
        Ok(storage)
    }

    // Adds the partitions of the device with this folder, and the disk that it is a partition of.
    fn add_related<R: Files<File = File>>(
        &mut self,
        rt: &R,
        alloc: Global,
        folder: &str,
    ) -> Result<(), AllocError> {
        self.add_partitions(rt, alloc, folder)?;
        if !contents_in(rt, alloc, folder, "partition")?.is_empty() {
            self.add_device(rt, alloc, folder, "../dev")?;
        }
        Ok(())
    }

    // Adds the partitions that a device's folder has.
    fn add_partitions<R: Files<File = File>>(
        &mut self,
        rt: &R,
        alloc: Global,
        folder: &str,
    ) -> Result<(), AllocError> {
        for name in names(rt, alloc, folder)?.split(ends_name) {
            self.add_partition(rt, alloc, folder, name)?;
        }
        Ok(())
    }

    // Adds the partition with a folder of this name in the device's, where it is one.
    fn add_partition<R: Files<File = File>>(
        &mut self,
        rt: &R,
        alloc: Global,
        folder: &str,
        name: &[u8],
    ) -> Result<(), AllocError> {
        let Ok(name) = str::from_utf8(name) else {
            return Ok(());
        };
        let own = format!(in alloc; "{folder}/{name}")?;
        if contents_in(rt, alloc, &own, "partition")?.is_empty() {
            return Ok(());
        }
        self.add_device(rt, alloc, &own, "dev")
    }

    // Adds the device whose number the file of this name in this folder has.
    fn add_device<R: Files<File = File>>(
        &mut self,
        rt: &R,
        alloc: Global,
        folder: &str,
        name: &str,
    ) -> Result<(), AllocError> {
        let text = contents_in(rt, alloc, folder, name)?;
        if let Some((major, minor)) = device_number(line_of(&text)) {
            self.nodes.push(Node::Device(major, minor))?;
        }
        Ok(())
    }

    // Whether the device is one of these.
    fn has_device(&self, number: &[u8]) -> bool {
        match device_number(number) {
            Some((major, minor)) => self.nodes.contains(&Node::Device(major, minor)),
            None => false,
        }
    }

    // Whether this path, with no escapes, leads to one of these.
    fn has_path<R: Files<File = File>>(&self, rt: &R, path: &[u8]) -> bool {
        let Ok(path) = str::from_utf8(path) else {
            return false;
        };
        path.starts_with('/')
            && match rt.metadata(path) {
                Ok(metadata) => self.nodes.contains(&node_of(&metadata)),
                Err(_) => false,
            }
    }

    // Whether a file system on one of these is mounted.
    fn is_mounted<R: Files<File = File>>(&self, rt: &R, alloc: Global) -> Result<bool, AllocError> {
        let mounts = contents(rt, alloc, "/proc/self/mountinfo")?;
        for line in mounts.split(ends_line) {
            if let Some(mount) = mount_of(line) {
                let source = unescaped(alloc, mount.source)?;
                if self.has_device(mount.device) || self.has_path(rt, &source) {
                    return Ok(true);
                }
            }
        }
        Ok(false)
    }

    // Whether the system swaps to one of these.
    fn is_swap<R: Files<File = File>>(&self, rt: &R, alloc: Global) -> Result<bool, AllocError> {
        let swaps = contents(rt, alloc, "/proc/swaps")?;
        for line in swaps.split(ends_line) {
            if self.has_path(rt, &unescaped(alloc, swap_of(line))?) {
                return Ok(true);
            }
        }
        Ok(false)
    }

    // Whether another device, as one of the device mapper, holds one of these.
    fn is_held<R: Files<File = File>>(&self, rt: &R, alloc: Global) -> Result<bool, AllocError> {
        for node in &self.nodes {
            if let Node::Device(major, minor) = *node {
                if has_holders(rt, alloc, &device_folder(alloc, major, minor)?)? {
                    return Ok(true);
                }
            }
        }
        Ok(false)
    }

    // Whether a loop device other than this one stands on one of these.
    fn is_looped<R: Files<File = File>>(
        &self,
        rt: &R,
        alloc: Global,
        but: Option<Node>,
    ) -> Result<bool, AllocError> {
        for name in names(rt, alloc, "/sys/block")?.split(ends_name) {
            if self.is_under(rt, alloc, name, but)? {
                return Ok(true);
            }
        }
        Ok(false)
    }

    // Whether the device of this name is a loop device other than this one, and stands on one of
    // these.
    fn is_under<R: Files<File = File>>(
        &self,
        rt: &R,
        alloc: Global,
        name: &[u8],
        but: Option<Node>,
    ) -> Result<bool, AllocError> {
        let Ok(name) = str::from_utf8(name) else {
            return Ok(false);
        };
        let folder = format!(in alloc; "/sys/block/{name}")?;
        let path = contents_in(rt, alloc, &folder, "loop/backing_file")?;
        if !self.has_path(rt, line_of(&path)) {
            return Ok(false);
        }
        is_other(rt, alloc, &folder, but)
    }

    // The loop device among these, and what it stands on.
    fn behind<R: Files<File = File>>(
        &self,
        rt: &R,
        alloc: Global,
    ) -> Result<Option<(Node, Node)>, AllocError> {
        for node in &self.nodes {
            if let Node::Device(major, minor) = *node {
                let folder = device_folder(alloc, major, minor)?;
                if let Some(behind) = backing_node(rt, alloc, &folder)? {
                    return Ok(Some((*node, behind)));
                }
            }
        }
        Ok(None)
    }

    // Whether one of these is in use, by another loop device than this one, or otherwise.
    fn is_used<R: Files<File = File>>(
        &self,
        rt: &R,
        alloc: Global,
        but: Option<Node>,
    ) -> Result<bool, AllocError> {
        Ok(
            self.is_mounted(rt, alloc)?
                || self.is_swap(rt, alloc)?
                || self.is_held(rt, alloc)?
                || self.is_looped(rt, alloc, but)?,
        )
    }
}

// Whether another device holds the one with this folder.
fn has_holders<R: Files<File = File>>(
    rt: &R,
    alloc: Global,
    folder: &str,
) -> Result<bool, AllocError> {
    let holders = names(rt, alloc, &format!(in alloc; "{folder}/holders")?)?;
    Ok(holders.split(ends_name).any(|name| !is_dots(name)))
}

// Whether the device with this folder is another one than this.
fn is_other<R: Files<File = File>>(
    rt: &R,
    alloc: Global,
    folder: &str,
    but: Option<Node>,
) -> Result<bool, AllocError> {
    let number = contents_in(rt, alloc, folder, "dev")?;
    let own = match device_number(line_of(&number)) {
        Some((major, minor)) => Some(Node::Device(major, minor)),
        None => None,
    };
    Ok(but.is_none() || own != but)
}

// What the loop device with this folder stands on.
fn backing_node<R: Files<File = File>>(
    rt: &R,
    alloc: Global,
    folder: &str,
) -> Result<Option<Node>, AllocError> {
    let path = contents_in(rt, alloc, folder, "loop/backing_file")?;
    let Ok(path) = str::from_utf8(line_of(&path)) else {
        return Ok(None);
    };
    match rt.metadata(path) {
        Ok(metadata) => Ok(Some(node_of(&metadata))),
        Err(_) => Ok(None),
    }
}

// Whether a name in a folder is none: empty, the folder itself, or the one above it.
fn is_dots(name: &[u8]) -> bool {
    name.is_empty() || name == b".".as_slice() || name == b"..".as_slice()
}

/// Whether the system has the leg that was opened so in use.
pub fn is_in_use<R: Files<File = File>>(
    rt: &R,
    alloc: Global,
    file: &File,
) -> Result<bool, AllocError> {
    let Ok(metadata) = file.metadata() else {
        return Ok(false);
    };
    let (mut node, mut but) = (node_of(&metadata), None);
    for _ in 0..MOST_LAYERS {
        let storage = Storage::of(rt, alloc, node)?;
        if storage.is_used(rt, alloc, but)? {
            return Ok(true);
        }
        let Some((over, behind)) = storage.behind(rt, alloc)? else {
            return Ok(false);
        };
        (node, but) = (behind, Some(over));
    }
    Ok(false)
}
