ghost use Rattle.std.specs.Prelude.{◌≡◌, ◌+◌, ◌≤◌, ◌++◌, drop, length, vec_len, IfOk};
ghost use Rattle.nm_replies.specs.Answer.{frame_of};

use nm_wire::{Memory, SimpleReply};
use std::alloc::Global;
use std::marker::Model;

/// The frame of the reply to a READ that succeeded ("Simple reply message"), in the buffer that it
/// was read into. The data stand behind room for the header, which is written last. Contracts see
/// it as the data.
#[derive(Drop)]
pub struct ReadFrame {
    whole: Vec<u8>,
}

impl Model for ReadFrame {
    ghost use Rattle.std.specs.Prelude.{ℕ, List, ◌≤◌, drop, vec_len};

    ghost Value = { List ℕ };

    ghost view = { λ frame. drop 16 frame.whole.items };

    ghost invariant = { λ frame. 16 ≤ vec_len frame.whole };
}

impl ReadFrame {
    /// How many bytes of a buffer are the header's, in front of the data.
    pub const HEADER: usize = SimpleReply::BYTES;

    /// This buffer, or another one where it is too small, with a header's room and so many bytes of
    /// data behind it. Whatever it held may stand there: who reads into it fills all of them.
    pub fn buffer(alloc: Global, used: Vec<u8>, count: u32) -> Result<Vec<u8>, Memory>
        ensures { IfOk result (λ whole. vec_len whole ≡ 16 + count) }
    {
        let size = SimpleReply::BYTES + count as usize;
        let mut whole = used;
        if whole.capacity() < size {
            drop(whole);
            whole = vec![in alloc; 0; size]?;
        }
        whole.resize(size, 0)?;
        Ok(whole)
    }

    /// The frame with the data that this buffer has behind the header's room.
    pub fn of(whole: Vec<u8>) -> ReadFrame
        requires { 16 ≤ vec_len whole }
        ensures { result ≡ drop 16 whole.items }
    {
        ReadFrame { whole }
    }

    /// How many bytes of data it has.
    pub fn len(&self) -> usize
        ensures { result ≡ length self.now }
    {
        self.data().len()
    }

    /// The data.
    pub fn data(&self) -> &[u8]
        ensures { result.now ≡ self.now }
    {
        &self.whole[SimpleReply::BYTES..]
    }

    /// The whole frame, with the header for this cookie. The data stay where they are, and it takes
    /// no memory.
    pub fn into_frame(self, cookie: u64) -> Vec<u8>
        ensures { result.items ≡ frame_of (record { error = 0; cookie = cookie; bytes = self }) }
    {
        let ReadFrame { mut whole } = self;
        let mut header = [0; SimpleReply::BYTES];
        SimpleReply { error: 0, cookie }.put(&mut header);
        put_front(&mut whole, &header);
        whole
    }
}

// Puts a header in front of the data, where it has room.
fn put_front(whole: &mut [u8], header: &[u8; 16])
    requires { 16 ≤ length whole.old }
    ensures whole { whole.new ≡ header.now ++ drop 16 whole.old }
    ensures len { length whole.new ≡ length whole.old }
{
    whole[..SimpleReply::BYTES].copy_from_slice(header);
}
