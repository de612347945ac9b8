//! What `nbdmirror` is asked for: its command line, and the lines of its control port.
//!
//! `settings` reads the command line, `control_line` a line of the control port, which `LineRoom`
//! cuts; what each gives is proved.
#![tactic(auto)]

mod client_options;
mod client_settings;
mod command_line;
mod command_word;
mod control_command;
mod copy_settings;
mod found_settings;
mod line_room;
mod listen_settings;
mod mirror_settings;
mod opening_settings;
mod option_row;
mod option_table;
mod server_settings;
mod start;
mod superblock_options;
mod superblock_place;
mod values;
mod version;
mod word_table;

pub use crate::client_settings::ClientSettings;
pub use crate::command_line::settings;
pub use crate::command_word::{Argument, CommandWord, ROWS};
pub use crate::control_command::{ControlCommand, control_line};
pub use crate::copy_settings::CopySettings;
pub use crate::line_room::{Fed, LineRoom};
pub use crate::listen_settings::ListenSettings;
pub use crate::mirror_settings::MirrorSettings;
pub use crate::opening_settings::OpeningSettings;
pub use crate::server_settings::Settings;
pub use crate::start::Start;
pub use crate::superblock_place::SuperblockPlace;
pub use crate::version::VERSION;
pub use crate::word_table::write_words;
