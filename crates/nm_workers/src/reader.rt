//! Reading what the client sends: on a thread of its own, or on that of the session's owner.
ghost use Rattle.std.specs.Prelude.{◌≡◌, ◌<◌, true, [], ℕ, List, Option, IfOk, IfErr, OnOk};
ghost use Rattle.std.specs.Io.KnownBytes.{Consumes, IsAtEnd};
ghost use Rattle.nm_mailbox.specs.Ends.{pieces_by, IsSameEnd};
ghost use Rattle.nm_workers.specs.Reading.{Gives, ReadsOn, Reads, ReadsFurther};
ghost use Rattle.nm_workers.specs.Reading as reading;

use crate::permits::{PermitReceiver, PermitSender, ReadPermit, permit_channel};
use crate::read_buffer::Room;
use crate::spin_wait::{BusyPoll, SpinWait};
use bytes::BytesMut;
use nm_mailbox::{Piece, PieceEnd};
use std::alloc::Global;
use std::io;
use std::io::Read;
use std::snapshot::Snapshot;
use std::sync::Wait;
use std::thread::{Promise, PromisedHandle, Scope};

// What reads a session's bytes: the reader, the end of the mailbox to which pieces are sent, and
// whether more may be read.
#[derive(Drop)]
pub struct Reader<I, M: Drop> {
    pub(crate) source: I,
    pub(crate) pieces: PieceEnd<M>,
    pub(crate) is_open: bool,
    // Whether a read failed after others had filled a part of a piece: that is told next.
    has_failed: bool,
}

impl<I, M: Drop> Reader<I, M> {
    // One that has read nothing.
    pub(crate) fn new(source: I, pieces: PieceEnd<M>) -> Reader<I, M>
        ensures source { result.source ≡ source }
        ensures pieces { result.pieces ≡ pieces }
        ensures is_open { result.is_open ≡ true }
    {
        Reader {
            source,
            pieces,
            is_open: true,
            has_failed: false,
        }
    }
}

// Starts a thread that reads a piece for each permit. Where there is no memory or no thread for it,
// the reader comes back.
pub(crate) fn start_reading<'s, S, R, I, M>(
    rt: &'s R,
    alloc: Global,
    scope: &Scope<'s, S>,
    reader: Reader<I, M>,
) -> Result<(PermitSender, PromisedHandle<Reader<I, M>, AllRead<I, M>>), Reader<I, M>>
where
    R: Wait + Sync + 's,
    I: Read + Send + Drop + 's,
    M: Send + Drop + 's,
    ensures ok { IfOk result (λ started. started.1.promise.0.value ≡ reader) }
    ensures err { IfErr result (λ back. ReadsFurther I.remaining reader back) }
{
    let Ok((permits, given)) = permit_channel(alloc) else {
        return Err(reader);
    };
    let promise = AllRead(Snapshot::of(&reader));
    match scope.spawn_with(promise, move || read_pieces(rt, reader, given)) {
        Ok(thread) => Ok((permits, thread)),
        Err(refused) => {
            drop(permits);
            let read = refused.value;
            Err(read())
        }
    }
}

// Reads one piece for each permit and sends it, until the client's bytes end, a read fails, or no
// further permit comes.
fn read_pieces<R: Wait, I: Read, M: Drop>(
    rt: &R,
    reader: Reader<I, M>,
    permits: PermitReceiver,
) -> Reader<I, M>
    ensures reads { ReadsFurther I.remaining reader result }
{
    let (mut reader, mut permits) = (reader, permits);
    'permits: for _ in rt.forever() {
        let Some(permit) = permits.recv(rt) else {
            return reader;
        };
        read_on(rt, &mut reader, permit);
        if !reader.is_open {
            return reader;
        }
    }
    unreachable!()
}

// Polls for bytes for a while, and then reads a piece and sends it, unless no more is to be read.
pub(crate) fn poll_and_read<R: Wait, I: BusyPoll, M: Drop>(
    rt: &R,
    spin_wait: &mut SpinWait<'_>,
    reader: &mut Reader<I, M>,
    permit: ReadPermit,
)
    ensures reads { ReadsFurther I.remaining reader.old reader.new }
{
    spin_wait.poll(&mut reader.source);
    read_on(rt, reader, permit);
}

// Reads a piece and sends it, unless no more is to be read.
fn read_on<R: Wait, I: Read, M: Drop>(rt: &R, reader: &mut Reader<I, M>, permit: ReadPermit)
    ensures reads { ReadsFurther I.remaining reader.old reader.new }
{
    if reader.is_open {
        reader.is_open = read_piece(
            rt,
            &mut reader.source,
            &mut reader.has_failed,
            &mut reader.pieces,
            permit,
        );
    }
}

// Reads a piece and sends it. False where no more is to be read.
fn read_piece<R: Wait, I: Read, M: Drop>(
    rt: &R,
    source: &mut I,
    has_failed: &mut bool,
    pieces: &mut PieceEnd<M>,
    permit: ReadPermit,
) -> bool
    ensures goes { (input : Option (List ℕ))
        → ReadsOn input (I.remaining source.old) (pieces_by pieces.old)
        → Reads result input (I.remaining source.new) (pieces_by pieces.new) }
    ensures channel { IsSameEnd pieces.new pieces.old }
{
    let piece = take_piece(source, has_failed, permit);
    let is_open = brings_bytes(&piece);
    match pieces.send(rt, piece) {
        Ok(()) => is_open,
        Err(_) => false,
    }
}

// Whether more may follow the piece.
fn brings_bytes(piece: &Piece) -> bool
    ensures { result ≡ reading.brings_bytes piece.now }
{
    match piece {
        Piece::Bytes(_) => true,
        Piece::Ended => false,
        Piece::Failed => false,
    }
}

// Reads a piece into the room that the permit brings, unless it is still to be told that a read
// failed. One that fails after others gave bytes is told with the next permit, and nothing is read.
fn take_piece<I: Read>(source: &mut I, has_failed: &mut bool, permit: ReadPermit) -> Piece
    ensures { Gives result (I.remaining source.old) (I.remaining source.new) }
{
    if *has_failed {
        return Piece::Failed;
    }
    let Room { mut bytes, wanted } = permit.into_room();
    let filled = fill(source, &mut bytes, wanted);
    if !bytes.is_empty() {
        *has_failed = filled.is_err();
        return Piece::Bytes(bytes);
    }
    match filled {
        Ok(()) => Piece::Ended,
        Err(_) => Piece::Failed,
    }
}

// Reads into the room until it has at least so many bytes, or the client's bytes end.
fn fill<I: Read>(source: &mut I, room: &mut BytesMut, wanted: usize) -> io::Result<()>
    requires empty { room.old.items ≡ [] }
    requires some { 0 < room.old.spare }
    requires wanted { 0 < wanted }
    ensures gives { Consumes (I.remaining source.old) (I.remaining source.new) room.new.items }
    ensures end { OnOk result (room.new.items ≡ [] → IsAtEnd (I.remaining source.new)) }
{
    'reads: while room.len() < wanted {
        let count = room.read_from(source)?;
        if count == 0 {
            break;
        }
    }
    Ok(())
}

// What the reading thread promises, by the side that it starts with.
#[derive(Drop)]
pub(crate) struct AllRead<I, M: Drop>(pub(crate) Snapshot<Reader<I, M>>);

impl<I: Read, M: Drop> Promise<Reader<I, M>> for AllRead<I, M> {
    ghost use Rattle.nm_workers.specs.Reading.{ReadsFurther};

    ghost kept_by = { λ promise reader. ReadsFurther I.remaining promise.0.value reader };
}
