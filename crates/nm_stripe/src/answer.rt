use crate::room::Room;
use crate::value::Value;
use crate::written::Written;
use nm_fanout::Data;
use nm_rules::Refusal;

/// What a step answers.
#[derive(Drop)]
pub enum Answer<L> {
    /// The write began, under this ticket.
    Begun(u64),
    /// The write reached the leg, and still owes this many.
    Pushed(u64),
    /// The write reached its last leg. Its first block's entry has this number.
    Complete(u64),
    /// The leg failed, the only one in sync, and the stripe has stopped.
    Halted,
    /// The write is done.
    Written(Written<L>),
    /// The blocks' bytes, as they were read.
    Value(Value<L>),
    /// The leg has gone out. It was not the master.
    Failed,
    /// The master has gone out, and this leg is the master now.
    MasterChanged(u8),
    /// The leg joins, and so many blocks are left to copy to it.
    Joining(u64),
    /// So many blocks were copied halfway or whole; so many are left.
    Copied { moved: u64, left: u64 },
    /// The leg is behind in no region.
    Nothing,
    /// The leg is in sync.
    InSync,
    /// What the leg held is durable.
    Synced,
    /// This leg failed, and has gone out. What was handed in comes back.
    LegLost(u8, Handed<L>),
    /// The step was refused, and what was handed in comes back.
    Refused(Refusal, Handed<L>),
}

/// What a step that was not done hands back.
#[derive(Drop)]
pub enum Handed<L> {
    /// Nothing was handed in.
    Nothing,
    /// A write's data.
    Data(Data),
    /// A read's room. Where a leg was called, it may have any bytes.
    Room(Room),
    /// A leg.
    Replacement(L),
}
