// The text for Graphviz.

ghost use Rattle.std.specs.Prelude.{◌≡◌, ◌<◌, IfOk, IfSome, length};
ghost use Rattle.flow_views.specs.ViewTables.{AreViewTables};
ghost use Rattle.flow_views.specs.code.ViewProgram.{AreShown, known_of};
ghost use Rattle.flow_views.specs.declared.names.NameForm.TheVariants.{Escaped};
ghost use Rattle.report_answers.specs.code.Reported.{TellReport};
ghost use Rattle.text_pieces.specs.Pieces.{CanWrite, Writes};
ghost use Rattle.block_dots.specs.BlockDots.{IsBlockDot, block_dot_of};

use crate::OutOfMemory;
use crate::edges::BlockEdges;
use crate::legend::write_legend_if;
use crate::nodes::BlockNodes;
use dot_texts::{write_head, write_shown_clusters};
use flow_graph::Graph;
use flow_views::{NameForm, View, ViewProgram, ViewTables};
use report_answers::ReportAnswers;
use std::alloc::Global;
use std::marker::Model;
use text_pieces::{Pieces, Sink, Text};

/// A program's basic blocks with their sets, as a picture for Graphviz: each procedure is a cluster as in a picture of points, each block a
/// node, named by the number of its first point. Its label has
///
/// - each label of its first point, `LABEL:`, and each statement, `LINE: STATEMENT`, with the report's remarks on it below;
/// - for each chosen analysis `reach gen: SET`, `reach kill: SET`, `reach IN: SET` and `reach OUT: SET`, in lines of 60 signs; of a call and of
///   a procedure's end, each a block of its own, IN alone. They stand in the node's tooltip where that is asked for.
///
/// IN holds before the first statement and OUT behind the last, in every analysis. Kill is the union of what statements kill, gen what one of
/// them generates and none beyond it kills. A block has the marks that any of its points has, and the words `block` and theirs as its class.
///
/// Edges are those of the picture of points that leave a block's last point, and the dotted line joins a call to the block behind it.
///
/// What changes, and sets behind each statement, are not shown, whatever the view says of them. The work is linear in the program, its edges,
/// the text, and for each chosen analysis its bits times the points.
#[derive(Drop)]
pub struct BlockDotText<'a> {
    shown: ViewProgram<'a>,
}

impl<'a> Model for BlockDotText<'a> {
    ghost use Rattle.std.specs.Prelude.{◌≡◌, List, ℕ};
    ghost use Rattle.flow_views.specs.code.ViewProgram.{AreShown, known_of};
    ghost use Rattle.flow_views.specs.declared.names.NameForm.TheVariants.{Escaped};
    ghost use Rattle.block_dots.specs.BlockDots.{block_dot_of};

    ghost Value = { List ℕ };

    ghost view = { λ text. block_dot_of text.shown.found.graph.now (known_of text.shown) text.shown.view };

    ghost invariant = { λ text. AreShown text.shown × (text.shown.names.form ≡ Escaped) };
}

impl<'a> BlockDotText<'a> {
    /// The picture, ready to be written.
    ///
    /// The conditions: the answers to what a report asks and the tables are of this graph, these of the analyses that are shown, and the
    /// procedure that is shown is one of its program. Fails only where memory runs out.
    pub fn of(
        alloc: Global,
        graph: &'a Graph<'a>,
        tables: &'a ViewTables,
        answers: &'a ReportAnswers,
        view: View,
    ) -> Result<BlockDotText<'a>, OutOfMemory>
        requires tables { AreViewTables graph.now view tables.now }
        requires answers { TellReport graph.now answers.now }
        requires procedure { IfSome view.procedure (λ procedure. procedure < length graph.now.procedure_names) }
        ensures { IfOk result (IsBlockDot graph.now view) }
    {
        let shown = ViewProgram::of(alloc, graph, tables, answers, view, NameForm::Escaped)?;
        Ok(BlockDotText { shown })
    }
}

impl<'a> Text for BlockDotText<'a> {
    ghost bytes = { λ text. text };

    fn write<K: Sink>(&self, out: &mut Pieces<'_, K>) {
        write_picture(&self.shown, out);
    }
}

// Writes the picture.
fn write_picture<K: Sink>(shown: &ViewProgram<'_>, out: &mut Pieces<'_, K>)
    requires ready { CanWrite K.Sink out.old }
    requires shown { AreShown shown.now }
    requires form { shown.now.names.form ≡ Escaped }
    ensures { Writes K.Sink out.old out.new (block_dot_of shown.now.found.graph.now (known_of shown.now) shown.now.view) }
{
    write_head(out);
    write_shown_clusters(&BlockNodes, shown, out);
    shown.write_all_points(&BlockEdges, out);
    write_legend_if(out, shown.view.look.legend);
    out.write(b"}\n");
}
