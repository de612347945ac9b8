//! The version of the programs.

/// The version, as the command line and the control port tell it.
pub const VERSION: &str = "0.1.0";
