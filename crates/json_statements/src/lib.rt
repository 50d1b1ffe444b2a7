//! Statements, definitions and expressions in parts, as JSON: what they are made of, by number.
#![tactic(auto)]

mod bits;
mod operands;
mod statements;

pub use bits::{write_definitions, write_expressions};
pub use statements::write_parts_fields;
