ghost use Rattle.std.specs.Prelude.{◌≡◌, ◌+◌, ◌<◌, ◌≤◌, ◌++◌, [], length, None, IfSome, IfNone};
ghost use Rattle.std.specs.Prelude.{IfOk};
ghost use Rattle.std.specs.Prelude.{OnOk, OnErr, List, ℕ};
ghost use Rattle.nm_wire.specs.Sizes.{max_payload};
ghost use Rattle.nm_requests.specs.First.{HasPayload, BeginsRead, message_of};
ghost use Rattle.nm_requests.specs.Message.{Message, read_length};
ghost use Rattle.nm_requests.specs.Stream.{StartsWith};

use crate::cutting::{cut_first, first_read_len, missing_len};
use crate::fault::Fault;
use crate::received::Received;
use crate::request::Request;
use bytes::BytesMut;
use std::alloc::{AllocError, Global};
use std::marker::Model;

/// Cuts a stream of bytes into requests, however it comes in pieces.
///
/// Contracts see the bytes that are not handed out yet, how many requests were, the fault at which
/// the reader stopped, and its room: how many more bytes it takes with no allocation.
#[derive(Drop)]
pub struct RequestReader {
    // None until memory is first needed: a new reader takes none.
    buffer: Option<Received>,
    count: u64,
    fault: Option<Fault>,
}

impl Model for RequestReader {
    ghost use Rattle.nm_requests.specs.Reader.{Unread};

    ghost Value = { Unread };

    ghost use Rattle.nm_requests.specs.ReaderFields.{unread_of, IsSound};

    ghost view = { unread_of };

    ghost invariant = { IsSound };
}

impl RequestReader {
    ghost use Rattle.nm_requests.specs.Reader.{IsNew, IsUnchanged, Feeds, HandsOut, Starves, Stops};

    /// A reader to which nothing was fed; takes no memory.
    pub fn new() -> RequestReader
        ensures { IsNew result }
    {
        RequestReader {
            buffer: None,
            count: 0,
            fault: None,
        }
    }

    /// How many requests were handed out: the index that the next one gets.
    pub fn count(&self) -> u64
        ensures { result ≡ self.now.count }
    {
        self.count
    }

    /// How many bytes can be fed before memory is needed.
    pub fn room(&self) -> usize
        ensures { result ≡ self.now.room }
    {
        match &self.buffer {
            Some(buffer) => buffer.room(),
            None => 0,
        }
    }

    /// Makes room for this many bytes, so that feeding no more than them is not refused for memory
    /// before the next call of `next`. The error is out of memory.
    pub fn reserve(&mut self, alloc: Global, n: usize) -> Result<(), AllocError>
        ensures ok { OnOk result (n ≤ self.new.room) }
        ensures full { OnErr result (self.old.room < n) }
        ensures room { self.old.room ≤ self.new.room }
        ensures kept { IsUnchanged self.old self.new }
    {
        if self.buffer.is_none() {
            self.buffer = Some(Received::new(alloc));
        }
        if let Some(buffer) = &mut self.buffer {
            buffer.reserve(n)?;
        }
        Ok(())
    }

    /// Takes the next piece of the stream. Only `next` finds a fault in the stream; from then on
    /// this answers it too.
    pub fn feed(&mut self, alloc: Global, piece: &[u8]) -> Result<(), Fault>
        ensures ok { OnOk result (Feeds self.old piece.now self.new) }
        ensures room { OnOk result (self.old.room ≤ self.new.room + length piece.now) }
        ensures for_good { IfSome self.old.fault (λ fault. (result ≡ Err fault)
            × Stops self.old fault self.new) }
        ensures memory { IfNone self.old.fault (OnErr result (result ≡ Err Fault.Memory)) }
        ensures full { result ≡ Err Fault.Memory → self.old.room < length piece.now }
        ensures err { OnErr result (IsUnchanged self.old self.new) }
    {
        if let Some(fault) = self.fault {
            return Err(fault);
        }
        if self.buffer.is_none() {
            self.buffer = Some(Received::new(alloc));
        }
        if let Some(buffer) = &mut self.buffer {
            buffer.append(piece)?;
        }
        Ok(())
    }

    /// Takes the next piece of the stream with its memory. A long piece becomes the receive buffer
    /// where nothing is unread, or no more than a request's header: none of its bytes is copied.
    /// Any other piece is copied, and keeps its room. Faults are answered as by `feed`.
    pub fn take_piece(&mut self, alloc: Global, piece: &mut BytesMut) -> Result<(), Fault>
        ensures ok { OnOk result (Feeds self.old piece.old.items self.new) }
        ensures for_good { IfSome self.old.fault (λ fault. (result ≡ Err fault)
            × Stops self.old fault self.new) }
        ensures memory { IfNone self.old.fault (OnErr result (result ≡ Err Fault.Memory)) }
        ensures full { result ≡ Err Fault.Memory → self.old.room < length piece.old.items }
        ensures err { OnErr result (IsUnchanged self.old self.new) }
        ensures kept { OnErr result (piece.new ≡ piece.old) }
    {
        if let Some(fault) = self.fault {
            return Err(fault);
        }
        if self.buffer.is_none() {
            self.buffer = Some(Received::new(alloc));
        }
        if let Some(buffer) = &mut self.buffer {
            buffer.take_piece(alloc, piece)?;
        }
        Ok(())
    }

    /// How many bytes the next request asks to read: 0 where it is no READ, or its header has not
    /// come.
    pub fn read_length(&self) -> u32
        ensures first { (message : Message) (after : List ℕ)
            → StartsWith self.now.count self.now.rest message after
            → result ≡ read_length message.head }
        ensures begins { 0 < result → BeginsRead self.now.rest result }
    {
        match &self.buffer {
            Some(buffer) => first_read_len(buffer),
            None => 0,
        }
    }

    /// How many bytes of the next request have not come: 0 where its header has not.
    pub fn missing(&self) -> usize
        ensures capped { result ≤ 28 + max_payload }
        ensures missing { (message : Message) (more : List ℕ) → 28 ≤ length self.now.rest
            → StartsWith 0 (self.now.rest ++ more) message [] → result ≡ length more }
    {
        match &self.buffer {
            Some(buffer) => missing_len(buffer),
            None => 0,
        }
    }

    /// The next request, if all of it has come. Its payload shares the receive buffer's memory or,
    /// where it is a small part of a large block, is a copy. Only a payload needs memory, which is
    /// taken from the buffer's own allocator.
    pub fn next(&mut self, _alloc: Global) -> Result<Option<Request>, Fault>
        ensures request { IfOk result (λ found. IfSome found (λ request.
            HandsOut self.old (message_of request) self.new)) }
        ensures index { IfOk result (λ found. IfSome found
            (λ request. request.index ≡ self.old.count)) }
        ensures none { IfOk result (λ found. IfNone found (Starves self.old self.new)) }
        ensures for_good { IfSome self.old.fault (λ fault. (result ≡ Err fault)
            × Stops self.old fault self.new) }
        ensures magic { result ≡ Err Fault.Magic → Stops self.old Fault.Magic self.new }
        ensures too_long { result ≡ Err Fault.TooLong → Stops self.old Fault.TooLong self.new }
        ensures memory { result ≡ Err Fault.Memory → HasPayload self.old.count self.old.rest }
        ensures unchanged { result ≡ Err Fault.Memory
            → (self.old.fault ≡ None) × (self.new ≡ self.old) }
    {
        if let Some(fault) = self.fault {
            return Err(fault);
        }
        let Some(buffer) = &mut self.buffer else {
            return Ok(None);
        };
        match cut_first(buffer, self.count) {
            Ok(Some(request)) => {
                self.count += 1;
                Ok(Some(request))
            }
            Err(fault) if fault != Fault::Memory => {
                self.fault = Some(fault);
                Err(fault)
            }
            other => other,
        }
    }
}
