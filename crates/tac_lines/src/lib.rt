//! The lines of a text: their tokens, which forms they have, and the first fault that a line shows by itself.
#![tactic(auto)]

mod fault;
mod form;
mod formed;
pub mod laws;
pub mod lex;
mod lexed;
mod line;
mod piece;
mod refusal;
mod row;
mod statement;
mod token;

pub use fault::{Fault, Stop};
pub use form::{Form, Slot, fits_at};
pub use formed::{Lines, Statement, counted};
pub use line::{behind_labels, label_at, row_fault, stop_of};
pub use piece::{front, number_value};
pub use refusal::{ReadFault, Refusal, RefusalKind};
pub use statement::{Role, cells, has_only_variables};
pub use std::alloc::AllocError as OutOfMemory;
pub use token::{Keyword, Token, TokenKind};
