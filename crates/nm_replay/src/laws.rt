//! Laws of histories and of events. Each function does nothing: its contract is the law, for every
//! history and every list of events.
ghost use Rattle.nm_replay.specs.Laws.{ConsistentIsExplained, ConsistentIsLegal};
ghost use Rattle.nm_replay.specs.Laws.{EndPieceIsLegal, KeptIsConsistent, LegalThenLegal};
ghost use Rattle.nm_replay.specs.OrderLaws.{PatchKeepsTheRest, ReadFindsTheLastBytes};
ghost use Rattle.nm_replay.specs.OrderLaws.{ReadBeforeRead, ReadBeforeWrite};
ghost use Rattle.nm_replay.specs.OrderLaws.{WriteBeforeRead, WriteBeforeWrite};
ghost use Rattle.nm_replay.specs.PartLaws.{LayingKeepsTheLength, LayingKeepsTheRest};
ghost use Rattle.nm_replay.specs.PartLaws.{PartIsWhereLaid, SameOutsideIsLaid};
ghost use Rattle.nm_replay.specs.ReadLaws.{NoReadEntryBeforeItsBegin, NoReadReplyBeforeItsEntry};
ghost use Rattle.nm_replay.specs.ReadLaws.{NoSecondReadBegin, NoSecondReadEntry, NoSecondReadReply};
ghost use Rattle.nm_replay.specs.ReadLaws.{ReadLandsAfterItsBegin, ReadLandsAsItBegan};
ghost use Rattle.nm_replay.specs.ReadLaws.{ReadRepliedAfterItsEntry, ReadRepliedWithItsBytes};
ghost use Rattle.nm_replay.specs.WriteLaws.{NoSecondWriteBegin, NoSecondWriteEntry};
ghost use Rattle.nm_replay.specs.WriteLaws.{NoSecondWriteReply};
ghost use Rattle.nm_replay.specs.WriteLaws.{NoWriteEntryBeforeItsBegin, NoWriteReplyBeforeItsEntry};
ghost use Rattle.nm_replay.specs.WriteLaws.{WriteLandsAfterItsBegin, WriteLandsAsItBegan};
ghost use Rattle.nm_replay.specs.WriteLaws.{WriteRepliedAfterItsEntry, WriteRepliedWithItsNumber};

/// Some array makes a list of entries legal up to a given array exactly if the list is consistent
/// and the last entry on each block that has one is what that array has there.
pub fn consistent_is_legal()
    ensures { ConsistentIsLegal }
{}

/// Some arrays make a list of entries legal, from one to the other, exactly if it is consistent.
pub fn consistent_is_explained()
    ensures { ConsistentIsExplained }
{}

/// Each end piece of a legal list of entries is legal, from what the first piece leaves up to the
/// same array.
pub fn end_piece_is_legal()
    ensures { EndPieceIsLegal }
{}

/// Of a list of entries that is consistent and ends in an array, the last are consistent and end in
/// that array, however many are kept.
pub fn kept_is_consistent()
    ensures { KeptIsConsistent }
{}

/// A legal list of entries followed by a legal list of entries is legal.
pub fn legal_then_legal()
    ensures { LegalThenLegal }
{}

/// No operation takes effect before it begins.
pub fn no_entry_before_its_begin()
    ensures write { NoWriteEntryBeforeItsBegin }
    ensures read { NoReadEntryBeforeItsBegin }
{}

/// No operation is replied to before it takes effect.
pub fn no_reply_before_its_entry()
    ensures write { NoWriteReplyBeforeItsEntry }
    ensures read { NoReadReplyBeforeItsEntry }
{}

/// No operation begins twice.
pub fn no_second_begin()
    ensures write { NoSecondWriteBegin }
    ensures read { NoSecondReadBegin }
{}

/// No operation takes effect twice.
pub fn no_second_entry()
    ensures write { NoSecondWriteEntry }
    ensures read { NoSecondReadEntry }
{}

/// No operation is replied to twice.
pub fn no_second_reply()
    ensures write { NoSecondWriteReply }
    ensures read { NoSecondReadReply }
{}

/// A write's entry has the block that the write began with and puts there what it began with; a
/// read's entry has its block.
pub fn lands_as_it_began()
    ensures write { WriteLandsAsItBegan }
    ensures read { ReadLandsAsItBegan }
{}

/// A write is replied to with its entry's number, a read with its entry's bytes.
pub fn replied_with_its_entry()
    ensures write { WriteRepliedWithItsNumber }
    ensures read { ReadRepliedWithItsBytes }
{}

/// An operation that takes effect began before that.
pub fn lands_after_its_begin()
    ensures write { WriteLandsAfterItsBegin }
    ensures read { ReadLandsAfterItsBegin }
{}

/// An operation that is replied to began before that, and took effect in between.
pub fn replied_after_its_entry()
    ensures write { WriteRepliedAfterItsEntry }
    ensures read { ReadRepliedAfterItsEntry }
{}

/// A read finds the bytes of the last entry before its own on its block, or, where there is none,
/// what the array had there at first.
pub fn reads_find_the_last_bytes()
    ensures { ReadFindsTheLastBytes }
{}

/// A write of a part leaves the rest of its block as the last entry before its own on the block
/// left it, or, where there is none, as the array had it at first.
pub fn patches_keep_the_rest()
    ensures { PatchKeepsTheRest }
{}

/// Real-time order: an operation that was replied to before another began has the lower number,
/// whether or not the other has been replied to.
pub fn replied_before_begun()
    ensures write_write { WriteBeforeWrite }
    ensures write_read { WriteBeforeRead }
    ensures read_write { ReadBeforeWrite }
    ensures read_read { ReadBeforeRead }
{}

/// Bytes that were laid over a block, inside it, are found in their place.
pub fn part_is_where_laid()
    ensures { PartIsWhereLaid }
{}

/// Bytes laid over a block leave the rest of it as it was, and its length.
pub fn laying_keeps_the_rest()
    ensures rest { LayingKeepsTheRest }
    ensures length { LayingKeepsTheLength }
{}

/// A block that is the same as another outside a part is that other one with the part laid over it.
pub fn same_outside_is_laid()
    ensures { SameOutsideIsLaid }
{}
