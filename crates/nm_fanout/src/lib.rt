//! The records of writes under way: which legs each write has still to reach.
//!
//! A write is one of a run: blocks that follow one another, or a part of one block. Its record
//! exists from its beginning until it is claimed, and keeps the first block, the data, the legs
//! that the write has still to reach, and the number of its first entry once it took effect.
//! Every call on `Records` answers exactly what its list of records says, and only `new` takes
//! memory.
#![tactic(auto)]

pub use block_data::{Data, MOST_RUN};
pub use keeping::keep_run;
pub use own_block::OwnBlock;
pub use record_data::RecordData;
pub use record_list::MOST_RECORDS;
pub use records::Records;
pub use write_record::{LEGS, Record};

mod block_data;
mod keeping;
mod own_block;
mod record_data;
mod record_list;
mod records;
mod spare_blocks;
mod write_record;
mod zeroes;
