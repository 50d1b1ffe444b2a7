//! What a program is and what is found of it, as records of numbers and as texts in room of a caller's.
//!
//! A function over a text reads it anew within limits; one over a kept program asks what is kept. A range of points is `from..until`, where
//! 4294967295 stands for the end of all points; a range of bits is `lo..hi`. Each answers a [`Fault`] where there is no answer, and then has
//! written nothing, but for the size of a list for which there is too little room:
//!
//! - `Refused`, where the text is no program within the limits; `TooManyPoints` or `TooManyBits`, where its program has no graph within them.
//! - `BadAnalysis`, where a number is of no analysis; `BadRange`, where points are none of the program, bits none of the analysis, or a part
//!   none of a report.
//! - `BadRoom`, where the room is not for as many as there are, or is too small for a list. `OutOfMemory` only where memory was refused.
#![tactic(auto)]

mod calls;
mod edges;
mod fault;
mod flags;
mod kept_calls;
mod names;
mod parts;
mod queries;
mod remarks;
mod report_parts;
mod rooms;
mod statements;
mod text;
mod texts;

pub use calls::{
    NumberedFacts, definitions_of_text, expressions_of_text, facts_of_text, find_analysis,
    names_of_text, points_of_text, sizes_of_text,
};
pub use edges::{NumberedEdge, edges_of_kept};
pub use fault::Fault;
pub use flags::{doubtful_of_kept, paths_of_kept};
pub use kept_calls::{
    definitions_of_kept, expressions_of_kept, facts_of_kept, points_of_kept, report_of_kept,
    sizes_of_kept, statements_of_kept,
};
pub use names::{Named, fill_names};
pub use parts::{Definition, Expression, Part, Point, Sizes};
pub use queries::{NumberedQuery, ask_kept};
pub use remarks::{NumberedRemark, remarks_of_kept};
pub use report_parts::{ReportShare, report_part_of_text};
pub use rooms::put_list;
pub use statements::NumberedStatement;
pub use text::find_limits;
pub use texts::{listing_of_text, put_listing, report_of_text};
