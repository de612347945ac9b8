//! How a server starts on its legs' files: what it needs of the system, which superblocks it goes
//! by, and the mirror that they open, or that is opened by comparing the legs.
//!
//! Which superblock a start goes by, and that legs that differ are not served, is proved.
#![tactic(auto)]

mod adding;
mod alike;
mod changed_start;
mod equal_start;
mod found_legs;
mod gated_starts;
mod ids;
mod image_shape;
mod image_start;
mod inside;
mod inside_slots;
mod kept;
mod kept_mirror;
pub mod laws;
mod leg_numbers;
mod made_files;
mod meanwhile;
mod moving;
mod needs;
mod no_superblocks;
mod place_checks;
mod renewed_ids;
mod start_image;
mod starting;
mod superblock_choice;
mod superblock_opening;
mod superblock_places;
mod thread_trial;
mod two_places;
mod unknown;

pub use crate::adding::check_added;
pub use crate::image_start::open_by_image;
pub use crate::inside::{check_shrink, settle_place};
pub use crate::kept::{KeptImage, Superblocks};
pub use crate::kept_mirror::{OpenedMirror, open_asked_for};
pub use crate::leg_numbers::sort_legs;
pub use crate::meanwhile::Meanwhile;
pub use crate::moving::check_moved;
pub use crate::needs::{check_files, check_stack, reply_bytes_of};
pub use crate::superblock_places::{FoundPlaces, check_from};
pub use crate::thread_trial::{try_address_space, try_threads};
