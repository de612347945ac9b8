ghost use Rattle.std.specs.Prelude.{◌≡◌, IfOk};

use crate::backing_file::BackingFile;
use crate::sync_counts::{is_covered, may_have_lost};
use std::alloc::{AllocError, Global};
use std::io;
use std::io::ErrorKind;
use std::sync::atomic::{AtomicBool, AtomicU64, Ordering};
use std::thread::yield_now;

/// How often a sync looks whether another one has ended, yielding its thread in between.
const LOOKS: u64 = u64::MAX;

/// The writes of one user of a file.
#[derive(Drop)]
struct User {
    /// How many writes of this user are running.
    writing: AtomicU64,
    /// The greatest number of its writes that have ended, by the count of all writes of the file.
    last: AtomicU64,
    /// Whether a sync that failed may have lost bytes of it, which it was not told yet.
    has_lost: AtomicBool,
}

/// A file that is opened once and used by several legs, which write to different bytes of it.
///
/// A user's sync makes no call where a sync of another user covers its last write; and where a sync
/// fails, each user that has written since the last good one fails its next sync, or is told before
/// its next write, since the system tells the failure once for each opening.
///
/// Why a sync that succeeds is right to: say that it is user U's, and W is a write of U that had
/// ended before it began. One sync runs at a time (`is_syncing`). U succeeds only where the call of
/// a good sync S covers the greatest number of U's writes, and so W: S read the count of ended
/// writes before its call, and W's number, given when W had ended, is no larger. So S's call began
/// after W had ended. Take the first S that covers W. A sync F that failed can have lost bytes of W
/// only if its call ended after W began; it ended before S, and does so by marking the users,
/// before it lets S run. Then F finds U writing, or, as W takes its number before it is no longer
/// counted as running, finds a number of U no smaller than W's, which no sync before S covers. So F
/// marks U. U looks at the mark after it has read how much is covered, so where it reads what S
/// stored it also finds the mark, and fails, unless U was told. A mark goes only where U is told:
/// where its sync fails, or it asks (`tells_loss`). Then U's leg believes no sync, not even one that
/// runs, until the regions that it wrote since its last good one were written again, by writes
/// later than F.
///
/// Each order is that of one sequence of all these steps (`SeqCst`). Several calls of a user may
/// run at once; then its syncs leave the mark (`sync_untold`), and its leg asks for it while no
/// other call of the leg notes what came of it. A write that failed counts as one, since it may
/// have left bytes. Zeroes that are not written, since the file has a hole there, count as none:
/// they have stood there since the user's last write or the opening.
#[derive(Drop)]
pub struct SharedFile<F: BackingFile> {
    file: F,
    /// How many writes have ended. The first is the opening: what came before it is not durable.
    ended: AtomicU64,
    /// How many of them the last sync that succeeded covers.
    covered: AtomicU64,
    /// Whether a sync is running.
    is_syncing: AtomicBool,
    users: Vec<User>,
}

/// A fault of a user that the file does not have.
fn no_user() -> io::Error {
    io::Error::from(ErrorKind::InvalidInput)
}

/// A fault of a sync whose bytes an earlier one may have lost.
fn lost_earlier() -> io::Error {
    io::Error::from(ErrorKind::Other)
}

impl<F: BackingFile> SharedFile<F> {
    /// This file, for so many users.
    pub fn new(alloc: Global, file: F, users: usize) -> Result<Self, AllocError>
        ensures { IfOk result (λ shared. shared.file ≡ file) }
    {
        let mut all = Vec::with_capacity(alloc, users)?;
        for _ in 0..users {
            all.push(User {
                writing: AtomicU64::new(0),
                last: AtomicU64::new(1),
                has_lost: AtomicBool::new(false),
            })?;
        }
        Ok(SharedFile {
            file,
            ended: AtomicU64::new(1),
            covered: AtomicU64::new(0),
            is_syncing: AtomicBool::new(false),
            users: all,
        })
    }

    /// The file itself.
    pub fn file(&self) -> &F
        ensures { result.now ≡ self.now.file }
    {
        &self.file
    }

    /// Writes for this user, while other writes of it may run.
    pub fn write(&self, user: usize, at: u64, bytes: &[u8]) -> io::Result<usize> {
        let own = self.users.get(user).ok_or(no_user())?;
        own.writing.fetch_add(1, Ordering::SeqCst);
        let many = self.file.write_bytes(at, bytes);
        let before = self.ended.fetch_add(1, Ordering::SeqCst);
        own.last.fetch_max(before.wrapping_add(1), Ordering::SeqCst);
        own.writing.fetch_sub(1, Ordering::SeqCst);
        many
    }

    /// Whether a sync that failed may have lost bytes of this user, which it was not told yet. It
    /// is told by this.
    pub fn tells_loss(&self, user: usize) -> bool {
        match self.users.get(user) {
            Some(own) => {
                own.has_lost.load(Ordering::SeqCst) && own.has_lost.swap(false, Ordering::SeqCst)
            }
            None => false,
        }
    }

    /// Makes durable what this user has written. A loss that fails it is told by that.
    pub fn sync(&self, user: usize) -> io::Result<()> {
        let done = self.sync_untold(user);
        if done.is_err() {
            let _ = self.tells_loss(user);
        }
        done
    }

    /// Makes durable what this user has written, while other calls of it may run. Where a sync that
    /// failed may have lost bytes of it, this one fails until that is told by `tells_loss`.
    pub fn sync_untold(&self, user: usize) -> io::Result<()> {
        let own = self.users.get(user).ok_or(no_user())?;
        for _ in 0..LOOKS {
            if let Some(known) = self.known(own) {
                return known;
            }
            if !self.is_syncing.swap(true, Ordering::SeqCst) {
                let done = self.sync_alone(own);
                self.is_syncing.store(false, Ordering::SeqCst);
                return done;
            }
            yield_now();
        }
        Err(io::Error::from(ErrorKind::TimedOut))
    }

    /// How many writes have ended: a sync that begins from now on covers them.
    pub fn ended(&self) -> u64 {
        self.ended.load(Ordering::SeqCst)
    }

    /// Syncs the file ahead of its users' syncs, which then have the less to write, unless a sync
    /// covers so many writes that have ended. One that runs is waited for. Where it fails, each
    /// user that has written since the last good one fails its next sync. Whether it made a call.
    pub fn sync_ahead(&self, ended: u64) -> io::Result<bool> {
        for _ in 0..LOOKS {
            if self.covers(ended) {
                return Ok(false);
            }
            if !self.is_syncing.swap(true, Ordering::SeqCst) {
                let done = self.sync_up_to(ended);
                self.is_syncing.store(false, Ordering::SeqCst);
                return done;
            }
            yield_now();
        }
        Err(io::Error::from(ErrorKind::TimedOut))
    }

    /// Whether a sync covers so many writes that have ended.
    fn covers(&self, ended: u64) -> bool {
        is_covered(ended, self.covered.load(Ordering::SeqCst))
    }

    /// Syncs the file while no other sync runs, unless one covers so many writes that have ended.
    /// Whether it made a call.
    fn sync_up_to(&self, ended: u64) -> io::Result<bool> {
        if self.covers(ended) {
            return Ok(false);
        }
        self.sync_file()?;
        Ok(true)
    }

    /// What a user's sync answers without a call, if it needs none. How much is covered is read
    /// before the mark.
    fn known(&self, own: &User) -> Option<io::Result<()>> {
        let covered = self.covered.load(Ordering::SeqCst);
        if own.has_lost.load(Ordering::SeqCst) {
            return Some(Err(lost_earlier()));
        }
        if is_covered(own.last.load(Ordering::SeqCst), covered) {
            return Some(Ok(()));
        }
        None
    }

    /// Syncs for a user while no other sync runs.
    fn sync_alone(&self, own: &User) -> io::Result<()> {
        if let Some(known) = self.known(own) {
            return known;
        }
        self.sync_file()
    }

    /// Syncs the file while no other sync runs. A failure is told to each user that wrote.
    fn sync_file(&self) -> io::Result<()> {
        let ended = self.ended.load(Ordering::SeqCst);
        let done = self.file.sync_bytes();
        match &done {
            Ok(()) => self.covered.store(ended, Ordering::SeqCst),
            Err(_) => self.mark_users(),
        }
        done
    }

    /// Marks each user of which a sync that failed may have lost bytes.
    fn mark_users(&self) {
        let covered = self.covered.load(Ordering::SeqCst);
        for user in &self.users {
            let is_writing = user.writing.load(Ordering::SeqCst) != 0;
            if may_have_lost(is_writing, user.last.load(Ordering::SeqCst), covered) {
                user.has_lost.store(true, Ordering::SeqCst);
            }
        }
    }
}
