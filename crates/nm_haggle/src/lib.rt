//! The option haggling of NBD's fixed newstyle handshake, as a pure machine: bytes in, bytes out.
#![tactic(auto)]

pub use haggle::Haggle;
pub use next::Next;
pub use refused::Refused;
pub use step::Step;
pub use turn::Turn;

mod answer;
mod first_option;
mod haggle;
mod handshake;
pub mod laws;
mod next;
mod options;
mod phase;
mod piece;
mod progress;
mod refused;
mod replies;
mod step;
mod turn;
