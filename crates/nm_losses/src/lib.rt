//! What a loss of a leg's power costs, over lists of moves of a stripe: nothing.
//!
//! A leg that is out may lose what it has not synced. It comes back by `Return`, which has it
//! behind there, so what it lost is copied as what it missed is. Here are laws alone (`laws`).
#![tactic(auto)]

pub mod laws;
