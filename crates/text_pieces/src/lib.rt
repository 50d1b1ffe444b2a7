//! Bytes from a source and to a sink, and texts that are written to a sink in pieces.
#![tactic(auto)]

mod block;
mod delivery;
mod device;
mod from_read;
mod optional;
mod pieces;
mod pulls;
mod separator;
mod strings;
mod text;
mod to_write;
mod transfer;
mod whole;

pub use block::TextBlock;
pub use delivery::deliver;
pub use device::{DeviceFault, Sink, Source};
pub use from_read::FromRead;
pub use optional::write_if;
pub use pieces::Pieces;
pub use pulls::pull_all;
pub use separator::Separator;
pub use std::alloc::AllocError as OutOfMemory;
pub use strings::{push_escaped, push_quoted, write_escaped, write_quoted};
pub use text::{Bytes, Text};
pub use to_write::ToWrite;
pub use transfer::TransferFault;
pub use whole::whole_text;
