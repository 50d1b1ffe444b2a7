//! The texts of tables, and of sets of bits, written in pieces to any sink.
#![tactic(auto)]

mod bit_texts;
mod members;
mod table_texts;

pub use bit_texts::{line, texts_of_bits, write_number};
pub use members::{next_one, write_members, write_set};
pub use std::alloc::AllocError as OutOfMemory;
pub use table_texts::{TableText, table_text};
