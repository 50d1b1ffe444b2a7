//! What is shown of a program's flow graph with its facts, and how it is named: what pictures and lines of JSON are made of.
#![tactic(auto)]

mod labels;
mod marks;
mod names;
mod outcomes;
mod point_form;
mod point_names;
mod view;
mod view_program;
mod view_tables;

pub use marks::PointMarks;
pub use names::{NameForm, Names};
pub use outcomes::outcome_by;
pub use point_form::PointForm;
pub use point_names::{labels_of, name_of_label, name_of_procedure, scope_of, write_statement_of};
pub use std::alloc::AllocError as OutOfMemory;
pub use view::{Chosen, Look, View, analysis_name};
pub use view_program::{Numbers, ViewProgram, successors};
pub use view_tables::{ViewTables, shown_points};
