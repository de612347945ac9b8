//! The NBD protocol's numbers, flags and headers as they appear on the wire.
//!
//! A header's layout is a sequence of big-endian numbers. `put` writes exactly that layout, and
//! `get` parses a header exactly where the bytes begin with its layout.
#![tactic(auto)]

pub use client_flags::ClientFlags;
pub use command::Command;
pub use command_flags::CommandFlags;
pub use export::Export;
pub use export_flags::ExportFlags;
pub use info_kind::InfoKind;
pub use memory::Memory;
pub use name::Name;
pub use option_head::OptionHead;
pub use option_kind::OptionKind;
pub use option_reply::OptionReply;
pub use reply_kind::ReplyKind;
pub use request_head::RequestHead;
pub use server_flags::ServerFlags;
pub use simple_reply::SimpleReply;
pub use wire_fault::WireFault;

mod client_flags;
mod command;
mod command_flags;
pub mod errors;
mod export;
mod export_flags;
mod info_kind;
pub mod magic;
mod memory;
mod name;
pub mod number;
mod option_head;
mod option_kind;
mod option_reply;
mod reply_kind;
mod request_head;
mod server_flags;
mod simple_reply;
pub mod sizes;
mod wire_fault;
