//! The time of a leg's last change.
ghost use Rattle.std.specs.Prelude.{◌≡◌, Bool, false, is_ok};
ghost use Rattle.nm_leg_files.specs.LegTime.{FileTimes, IsSettledTime, ReadsTime, SyncsAll, none};
ghost use Rattle.nm_leg_files.specs.LegTime.{nanoseconds};

use std::fs::File;
use std::io;
use std::time::SystemTime;

/// How many nanoseconds a second has.
const SECOND: u64 = 1_000_000_000;

/// A file that has the time of its last change.
pub trait TimedFile {
    /// What is promised is promised of honest files alone.
    ghost honest: { Bool };

    /// The time of its last change.
    ghost times: { Self → FileTimes };

    /// Makes its contents durable, and its times perhaps.
    fn sync_data(&mut self) -> io::Result<()>;

    /// Makes its contents and its times durable.
    fn sync_all(&mut self) -> io::Result<()>
        ensures { SyncsAll honest (is_ok result) (times self.old) (times self.new) };

    /// The time of its last change in nanoseconds; 0 where it is unknown.
    fn changed(&mut self) -> u64
        ensures { ReadsTime honest result (times self.old) (times self.new) };
}

/// The time of the file's last change, once it is durable; 0 where it is unknown.
pub fn settled_time<F: TimedFile>(file: &mut F) -> u64
    ensures { IsSettledTime F.honest result (F.times file.new) }
{
    match file.sync_all() {
        Ok(()) => file.changed(),
        Err(_) => 0,
    }
}

/// A file of the system that is open.
#[derive(Clone, Copy, Drop)]
pub struct OpenFile<'a> {
    /// The file.
    pub file: &'a File,
}

/// Nothing is promised of it.
impl TimedFile for OpenFile<'_> {
    ghost honest = { false };

    ghost times = { λ _. none };

    fn sync_data(&mut self) -> io::Result<()> {
        self.file.sync_data()
    }

    fn sync_all(&mut self) -> io::Result<()> {
        self.file.sync_all()
    }

    fn changed(&mut self) -> u64 {
        time_of_change(self.file)
    }
}

// So many seconds and nanoseconds in nanoseconds; 0 where there is no such number.
fn nanoseconds(seconds: u64, rest: u32) -> u64
    ensures { result ≡ nanoseconds seconds rest }
{
    match seconds.checked_mul(SECOND) {
        Some(whole) => whole.checked_add(u64::from(rest)).unwrap_or(0),
        None => 0,
    }
}

/// The time of a file's last change in nanoseconds; 0 where it is unknown, and of a device.
pub fn time_of_change(file: &File) -> u64 {
    let Ok(metadata) = file.metadata() else {
        return 0;
    };
    if !metadata.is_file() {
        return 0;
    }
    let Ok(modified) = metadata.modified() else {
        return 0;
    };
    match modified.duration_since(SystemTime::UNIX_EPOCH) {
        Ok(since) => nanoseconds(since.as_secs(), since.subsec_nanos()),
        Err(_) => 0,
    }
}
