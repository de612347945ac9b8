//! Connections: where the server listens, its clients' and those of the control port, the places of
//! sessions with the rules that hold for each, and how the server is asked to end.
#![tactic(auto)]

mod activity;
mod client_reader;
mod client_stream;
mod client_writer;
mod control_places;
mod control_stream;
mod ending;
mod hang_up;
mod listener;
mod listening;
mod served_client;
mod serving_state;
mod session_lines;
mod session_places;
mod session_rules;
mod socket_file;
mod stream;
mod timed_stream;

pub use crate::activity::Activity;
pub use crate::client_reader::ClientReader;
pub use crate::client_stream::ClientStream;
pub use crate::client_writer::ClientWriter;
pub use crate::control_places::{CONNECTIONS, ControlPlaces};
pub use crate::control_stream::ControlStream;
pub use crate::ending::{Ending, Quit};
pub use crate::hang_up::HangUp;
pub use crate::listener::Listener;
pub use crate::listening::{listen, listen_beside};
pub use crate::serving_state::{ServingState, Shared};
pub use crate::session_lines::{SessionEnd, tell_begin, tell_end};
pub use crate::session_places::SessionPlaces;
pub use crate::session_rules::SessionRules;
pub use crate::stream::{Peer, Stream};
pub use crate::timed_stream::TimedStream;
