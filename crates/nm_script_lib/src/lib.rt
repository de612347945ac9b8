//! What `nm_script` runs: a text of steps on one stripe of memory legs.
//!
//! `run_script` reads the whole script, does its steps one after the other, and writes a line for
//! each answer, the history that the stripe keeps, and whether that history is legal. What it
//! writes is proved to be the lines of the answers, with `legal yes` as the last line.
#![tactic(auto)]

mod do_step;
mod engine;
mod fill;
mod input_error;
mod load;
mod mem_stripe;
mod mirror_line;
mod parse_error;
mod power_leg;
mod printing;
mod program;
mod run_error;
mod script;
mod script_stripe;
mod state_line;
mod step;
mod streams;
mod words;
mod write_error;

pub use crate::program::run_script;
