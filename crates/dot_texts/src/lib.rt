//! A program's flow graph with its facts as a picture for Graphviz, written in pieces to any sink.
#![tactic(auto)]

mod changes;
mod dots;
mod legend;
mod marks;

pub use dots::{
    DotLine, DotText, shows_edge, write_arrow, write_head, write_label_lines, write_open_dot,
    write_outcome, write_passage, write_passed_call, write_set_on, write_shown_clusters,
    write_title,
};
pub use legend::{write_legend_begin, write_legend_edges, write_legend_marks};
pub use marks::write_look;
pub use std::alloc::AllocError as OutOfMemory;
