ghost use Rattle.std.specs.Prelude.{◌≤◌, length, IfOk};

use std::fs::File;
use std::io;
use std::io::{Seek, SeekFrom};
use std::os::fd::AsRawFd;
use std::os::unix::fs::FileExt;

/// Asks `lseek` for the first place with data, from the one that is given on.
const SEEK_DATA: i32 = 3;

/// How `lseek` fails where no data follow.
const ENXIO: i32 = 6;

/// What several users ask of one file, some of them at once. Nothing is promised of its contents.
pub trait BackingFile: Drop {
    /// Reads bytes from `at` on, and says how many it found.
    fn read_bytes(&self, at: u64, into: &mut [u8]) -> io::Result<usize>
        ensures { IfOk result (λ n. n ≤ length into.new) };

    /// Writes bytes from `at` on, and says how many.
    fn write_bytes(&self, at: u64, bytes: &[u8]) -> io::Result<usize>;

    /// Makes durable what was written. What a failed call lost is not told to a later one.
    fn sync_bytes(&self) -> io::Result<()>;

    /// How many bytes the file has.
    fn count_bytes(&self) -> io::Result<u64>;

    /// Whether no data stand in these bytes of the file, which are then read as zeroes.
    fn has_hole(&self, at: u64, many: usize) -> bool;
}

impl BackingFile for File {
    fn read_bytes(&self, at: u64, into: &mut [u8]) -> io::Result<usize> {
        self.read_at(into, at)
    }

    fn write_bytes(&self, at: u64, bytes: &[u8]) -> io::Result<usize> {
        self.write_at(bytes, at)
    }

    fn sync_bytes(&self) -> io::Result<()> {
        self.sync_data()
    }

    /// Found at the end of the file, since a block device tells no length in its metadata.
    fn count_bytes(&self) -> io::Result<u64> {
        let mut file = self;
        file.seek(SeekFrom::End(0))
    }

    /// By one call that looks for data. A block device, or a file system that keeps no holes, has
    /// data everywhere. The call moves the place of the opening, on which nothing else rests: other
    /// calls name their place.
    fn has_hole(&self, at: u64, many: usize) -> bool {
        let data = libc::lseek(self.as_raw_fd(), at.cast_signed(), SEEK_DATA);
        if data < 0 {
            return data == -1 && os::errno() == ENXIO;
        }
        data.cast_unsigned() >= at.saturating_add(many as u64)
    }
}
