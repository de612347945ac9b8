//! The legs' files and those of their superblocks: opened, locked, called, and opened anew.
//!
//! On which file each leg stands, when a file fits its leg and what follows a save is proved.
#![tactic(auto)]

mod absence;
mod answer_bell;
mod blank_files;
mod call_seat;
mod change_times;
mod counting_file;
mod file_legs;
mod identities;
mod late_file;
mod late_slots;
mod late_superblock;
mod leg_file;
mod leg_files;
mod leg_maker;
mod leg_opener;
mod leg_opening;
mod leg_place;
mod leg_renewal;
mod leg_shares;
mod leg_syncs;
mod leg_time;
mod limited_file;
mod saving;
mod seen_file;
mod superblock_renewal;
mod superblock_writer;
mod timed_calls;
mod unfit;
mod window;

pub use crate::blank_files::{blank_file, blank_window, no_memory};
pub use crate::change_times::{known_times, saved_times};
pub use crate::counting_file::{BytesRead, CountingFile};
pub use crate::late_file::LateFile;
pub use crate::late_slots::LateSlots;
pub use crate::late_superblock::{LateSuperblock, again, blank_from, slot_at, with_added};
pub use crate::leg_files::{FileMirror, Leg, LegFiles, REGION, mirror_legs};
pub use crate::leg_maker::{LegMaker, MakesLegs};
pub use crate::leg_opener::{LegOpener, OpensLegs, open_or_make, open_writable, remove_durably};
pub use crate::leg_opening::{LegRules, bytes_of, open_locked};
pub use crate::leg_place::{LegPlace, is_same};
pub use crate::leg_syncs::LegSyncs;
pub use crate::limited_file::{CallLimit, share_limit};
pub use crate::saving::{AfterTry, after_try, is_clean, is_last_somewhere};
pub use crate::superblock_renewal::other_id;
pub use crate::superblock_writer::SuperblockWriter;
pub use crate::timed_calls::TimedCalls;
pub use crate::unfit::{AttachAnswer, ReplaceAnswer, Unfit};
pub use crate::window::{SlotsAt, are_marked, inside_from, superblock_inside};
