//! What a start decides from the superblocks that it found: the one that it goes by, whether none
//! can be newer, whose contents are what it says of them, and how each leg of a stripe starts.
#![tactic(auto)]

pub use assembly::{AssembleFault, Assembly, assemble};
pub use changes::{are_all_changed, changed_legs};
pub use first::{NewMirror, begin_lineage, first_superblock, forced_image};
pub use fresh::fresh_legs;
pub use image_legs::{LegStart, leg_start, named_leg};
pub use masters::master_of;
pub use misfit::{Misfit, first_misfit};
pub use missing::missing_leg;
pub use newest::newest_of;
pub use numbering::{Misnumbered, leg_numbers};
pub use own::{LegsHere, own_legs};

mod assembly;
mod changes;
mod first;
mod fresh;
mod image;
mod image_legs;
pub mod laws;
mod lineages;
mod masters;
mod misfit;
mod missing;
mod newest;
mod numbering;
mod own;
mod stripe_sets;
