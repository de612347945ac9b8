ghost use Rattle.std.specs.Prelude.{◌≡◌, ◌<◌, ◌≤◌, length, [], take, drop, min, Some};

use std::io::{self, ErrorKind, Read};
use std::marker::Model;

/// A reader of bytes in memory that serves them in pieces and can be made to fail, for tests.
#[derive(Drop)]
pub struct CutReader {
    bytes: Vec<u8>,
    at: usize,
    cut: usize,
    longest: usize,
    reads_left: Option<u64>,
}

impl Model for CutReader {
    ghost use Rattle.std.specs.Prelude.{ℕ, List, ◌<◌, ◌≤◌, drop, vec_len};

    ghost Value = { List ℕ };

    // What was not read yet.
    ghost view = { λ reader. drop reader.at reader.bytes.items };

    ghost invariant = { λ reader. (reader.at ≤ vec_len reader.bytes) × (0 < reader.longest) };
}

impl CutReader {
    /// A reader that serves as much as each read has room for, and does not fail.
    pub fn new(bytes: Vec<u8>) -> CutReader
        ensures { result ≡ bytes.items }
    {
        CutReader {
            bytes,
            at: 0,
            cut: 0,
            longest: usize::MAX,
            reads_left: None,
        }
    }

    /// No read goes past this many bytes of all that there are: a read that would stops there.
    pub fn cut_at(&mut self, cut: usize)
        ensures { self.new ≡ self.old }
    {
        self.cut = cut;
    }

    /// No read serves more than this many bytes.
    pub fn serve_at_most(&mut self, longest: usize)
        requires { 0 < longest }
        ensures { self.new ≡ self.old }
    {
        self.longest = longest;
    }

    /// The read of this number from now fails, and so does each later one; 1 is the next.
    pub fn fail_from(&mut self, read: u64)
        requires { 0 < read }
        ensures { self.new ≡ self.old }
    {
        self.reads_left = Some(read - 1);
    }

    // Counts one read, and tells whether it fails.
    fn is_cut_off(&mut self) -> bool
        ensures { self.new ≡ self.old }
    {
        let Some(left) = self.reads_left else {
            return false;
        };
        self.reads_left = Some(left.saturating_sub(1));
        left == 0
    }

    // The next piece: the first of the bytes that are left, none only where none is left.
    fn piece(&self) -> &[u8]
        ensures front { result.now ≡ take (length result.now) self.now }
        ensures none { length result.now ≡ 0 → self.now ≡ [] }
    {
        let end = end_of_piece(self.at, self.cut, self.bytes.len());
        let end = end.min(self.at.saturating_add(self.longest));
        &self.bytes[self.at..end]
    }

    // Passes over so many bytes.
    fn pass(&mut self, count: usize)
        requires { count ≤ length self.old }
        ensures { self.new ≡ drop count self.old }
    {
        self.at += count;
    }
}

impl Read for CutReader {
    ghost remaining = { λ reader. Some reader };

    #[tactic(auto, using(crate::proofs::Reading::reading))]
    fn read(&mut self, buf: &mut [u8]) -> io::Result<usize> {
        if self.is_cut_off() {
            return Err(io::Error::from(ErrorKind::ConnectionReset));
        }
        let count = copy_front(self.piece(), buf);
        self.pass(count);
        Ok(count)
    }
}

// Where a piece that begins here ends at the latest.
fn end_of_piece(at: usize, cut: usize, len: usize) -> usize
    requires { at ≤ len }
    ensures from { at ≤ result }
    ensures to { result ≤ len }
    ensures some { at < len → at < result }
{
    if at < cut && cut < len { cut } else { len }
}

// Copies as many of the first bytes as there is room for.
fn copy_front(from: &[u8], into: &mut [u8]) -> usize
    ensures count { result ≡ min (length from.now) (length into.old) }
    ensures bytes { take result into.new ≡ take result from.now }
{
    let count = from.len().min(into.len());
    into[..count].copy_from_slice(&from[..count]);
    count
}
