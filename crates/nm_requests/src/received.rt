ghost use Rattle.std.specs.Prelude.{◌≡◌, ◌≢◌, ◌↔◌, ℕ, List, [], ◌+◌, ◌^◌, ◌<◌, ◌≤◌, ◌++◌};
ghost use Rattle.std.specs.Prelude.{length, take, drop, IfOk, OnOk, OnErr, IsOk};
ghost use Rattle.bytes.specs.Filled.{MakesSpare};
ghost use Rattle.nm_wire.specs.Layout.{FitsRequestHead, request_head_bytes};
ghost use Rattle.nm_wire.specs.Number.{be, request_magic};

use crate::blocks::{append_to, cut_range, has_own_room, is_long_payload, is_to_become_block};
use crate::cutting::missing_len;
use bytes::{Bytes, BytesMut};
use nm_wire::{RequestHead, WireFault};
use std::alloc::{AllocError, Global};
use std::marker::Model;
use std::mem::replace;

// The bytes that were received and are not handed out yet. Contracts see them, and how many more
// are taken with no allocation.
//
// Where no more than a request's header is there, it is taken off once a long piece comes: the
// piece, which begins with the payload, then becomes the block of these bytes, and none is copied.
#[derive(Drop)]
pub struct Received {
    // The header of the first request, if it was taken off.
    head: Option<RequestHead>,
    // What follows it, or all that there is.
    bytes: BytesMut,
}

impl Model for Received {
    ghost use Rattle.bytes.specs.Filled.{Filled};

    ghost Value = { Filled };

    ghost use Rattle.nm_requests.specs.ReceivedFields.{filled_of, IsSound};

    ghost view = { filled_of };

    ghost invariant = { IsSound };
}

impl Received {
    // No bytes; takes no memory.
    pub(crate) fn new(alloc: Global) -> Received
        ensures items { result.items ≡ [] }
        ensures spare { result.spare ≡ 0 }
    {
        Received {
            head: None,
            bytes: BytesMut::new(alloc),
        }
    }

    // How many bytes there are.
    pub(crate) fn len(&self) -> usize
        ensures value { result ≡ length self.now.items }
        ensures bound { result < 2 ^ 63 + 28 }
    {
        match self.head {
            Some(_) => RequestHead::BYTES + self.bytes.len(),
            None => self.bytes.len(),
        }
    }

    // How many more are taken with no allocation.
    pub(crate) fn room(&self) -> usize
        ensures { result ≡ self.now.spare }
    {
        self.bytes.capacity() - self.bytes.len()
    }

    // Makes room for this many more.
    pub(crate) fn reserve(&mut self, n: usize) -> Result<(), AllocError>
        ensures items { self.new.items ≡ self.old.items }
        ensures spare { MakesSpare result self.old.spare self.new.spare n }
    {
        self.bytes.reserve(n)
    }

    // The header that the bytes begin with.
    pub(crate) fn first_head(&self) -> Result<RequestHead, WireFault>
        ensures ok { IfOk result
            (λ head. self.now.items ≡ request_head_bytes head ++ drop 28 self.now.items) }
        ensures fits { IfOk result FitsRequestHead }
        ensures reads_back { (head : RequestHead) (rest : List ℕ) → FitsRequestHead head
            → self.now.items ≡ request_head_bytes head ++ rest → result ≡ Ok head }
        ensures short { (result ≡ Err WireFault.Short) ↔ (length self.now.items < 28) }
        ensures magic { result ≡ Err WireFault.Magic
            → (28 ≤ length self.now.items) × (take 4 self.now.items ≢ be 4 request_magic) }
    {
        match self.head {
            Some(head) => Ok(head),
            None => RequestHead::get(self.bytes.as_slice()),
        }
    }

    // Appends a copy of the piece.
    pub(crate) fn append(&mut self, piece: &[u8]) -> Result<(), AllocError>
        ensures ok { OnOk result (self.new.items ≡ self.old.items ++ piece.now) }
        ensures room { OnOk result (self.old.spare ≤ self.new.spare + length piece.now) }
        ensures full { OnErr result (self.old.spare < length piece.now) }
        ensures err { OnErr result (self.new.items ≡ self.old.items) }
    {
        let missing = missing_len(self);
        append_to(&mut self.bytes, piece, missing)
    }

    // Appends the piece: one that is long becomes the block of these bytes where none are there, or
    // no more than a header, and else it is copied, and keeps its bytes.
    pub(crate) fn take_piece(
        &mut self,
        alloc: Global,
        piece: &mut BytesMut,
    ) -> Result<(), AllocError>
        ensures ok { OnOk result (self.new.items ≡ self.old.items ++ piece.old.items) }
        ensures full { OnErr result (self.old.spare < length piece.old.items) }
        ensures err { OnErr result (self.new.items ≡ self.old.items) }
        ensures kept { OnErr result (piece.new ≡ piece.old) }
    {
        if is_to_become_block(piece) {
            self.take_head_off();
            if self.bytes.is_empty() {
                self.bytes = replace(piece, BytesMut::new(alloc));
                return Ok(());
            }
        }
        self.append(piece.as_slice())
    }

    // Takes the header off, where it is all that is there.
    fn take_head_off(&mut self)
        ensures items { self.new.items ≡ self.old.items }
        ensures spare { self.new.spare ≡ self.old.spare }
    {
        if self.head.is_some() || self.bytes.len() != RequestHead::BYTES {
            return;
        }
        if let Ok(head) = RequestHead::get(self.bytes.as_slice()) {
            self.bytes.advance(RequestHead::BYTES);
            self.head = Some(head);
        }
    }

    // Takes a header and this many bytes after it, and returns the latter.
    pub(crate) fn cut_payload(&mut self, len: u32) -> Result<Bytes, AllocError>
        requires { 28 + len ≤ length self.old.items }
        ensures payload { IfOk result (λ payload. payload ≡ take len (drop 28 self.old.items)) }
        ensures rest { IfOk result (λ _. self.new.items ≡ drop (28 + len) self.old.items) }
        ensures empty { len ≡ 0 → IsOk result }
        ensures err { OnErr result (self.new ≡ self.old) }
    {
        if len == 0 {
            self.drop_head();
            return Ok(Bytes::new());
        }
        self.cut_bytes(len)
    }

    // Takes a header.
    fn drop_head(&mut self)
        requires { 28 ≤ length self.old.items }
        ensures { self.new.items ≡ drop 28 self.old.items }
    {
        match self.head {
            Some(_) => self.head = None,
            None => self.bytes.advance(RequestHead::BYTES),
        }
    }

    // The same as `cut_payload`, where there is a payload. Inlined, it would slow requests down
    // that have none.
    #[inline(never)]
    fn cut_bytes(&mut self, len: u32) -> Result<Bytes, AllocError>
        requires { 28 + len ≤ length self.old.items }
        ensures payload { IfOk result (λ payload. payload ≡ take len (drop 28 self.old.items)) }
        ensures rest { IfOk result (λ _. self.new.items ≡ drop (28 + len) self.old.items) }
        ensures err { OnErr result (self.new ≡ self.old) }
    {
        if let Some(_) = self.head {
            let payload = cut_range(&mut self.bytes, 0, len as usize)?;
            self.head = None;
            self.leave_long_block(len as usize);
            return Ok(payload);
        }
        let payload = cut_range(&mut self.bytes, RequestHead::BYTES, len as usize)?;
        self.leave_long_block(len as usize);
        Ok(payload)
    }

    // Moves the bytes to a new block if the payload cut before them was long, and no shorter than
    // they are, so that moving costs no more than feeding it did. They stay where memory is
    // refused, and where they begin with another long request, which may use the block again. A
    // header alone is taken off behind a payload that mostly has a block of its own: then nobody
    // else has any of that block, which can be read into again once the payload is let go.
    fn leave_long_block(&mut self, payload: usize)
        ensures { self.new.items ≡ self.old.items }
    {
        if payload < self.bytes.len() || !has_own_room(payload) {
            return;
        }
        let alloc = *self.bytes.allocator();
        self.take_head_off();
        if self.bytes.is_empty() {
            self.bytes = BytesMut::new(alloc);
            return;
        }
        if is_long_payload(payload) && !is_long_payload(missing_len(self)) {
            if let Ok(rest) = BytesMut::copy_from_slice(alloc, self.bytes.as_slice()) {
                self.bytes = rest;
            }
        }
    }
}
