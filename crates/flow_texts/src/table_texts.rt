// The text of a table.

ghost use Rattle.std.specs.Prelude.{◌≡◌, ◌<◌, IfOk, codes, if◌then◌else◌};
ghost use Rattle.flow_graph.specs.Points.{point_count};
ghost use Rattle.flow_graph.specs.Universes.{bits as bits_of};
ghost use Rattle.flow_team.specs.Tables.{IsTableOf, facts_of};
ghost use Rattle.text_pieces.specs.code.Blocks.{HoldsTexts};
ghost use Rattle.text_pieces.specs.Pieces.{CanWrite, Writes};
ghost use Rattle.flow_texts.specs.Tables.{IsTableText, bit_text, place_text, point_line};

use crate::OutOfMemory;
use crate::bit_texts::{texts_of_bits, write_number};
use crate::members::write_set;
use flow_graph::Graph;
use flow_team::Table;
use std::alloc::Global;
use std::marker::Model;
use text_pieces::{Pieces, Sink, Text, TextBlock, whole_text};

/// Writes the procedure of a point and its place there.
fn write_place<K: Sink>(out: &mut Pieces<'_, K>, graph: &Graph<'_>, point: u32)
    requires ready { CanWrite K.Sink out.old }
    requires point { point < point_count graph.now }
    ensures { Writes K.Sink out.old out.new (place_text graph.now point) }
{
    let place = graph.place(point);
    let program = graph.program();
    // Its contract tells that each procedure has a name.
    let _ = program.procs();
    out.write(program.procedure(place.procedure));
    out.write(b" ");
    write_number(out, place.place);
}

/// What stands between a place and its set.
fn path_mark(has_path: bool) -> &'static [u8]
    ensures { result.now ≡ (if has_path then codes ": " else codes " (no path): ") }
{
    if has_path { b": " } else { b" (no path): " }
}

/// Writes the line of a point.
fn write_point<K: Sink>(
    out: &mut Pieces<'_, K>,
    graph: &Graph<'_>,
    table: &Table,
    texts: &TextBlock,
    point: u32,
)
    requires ready { CanWrite K.Sink out.old }
    requires point { point < point_count graph.now }
    requires table { IsTableOf graph.now table.now }
    requires texts { HoldsTexts (codes ", ") (bit_text graph.now table.now.analysis) (bits_of graph.now table.now.analysis) texts.now }
    ensures { Writes K.Sink out.old out.new (point_line graph.now table.now.analysis (facts_of table.now) point) }
{
    if out.has_failed() {
        return;
    }
    write_place(out, graph, point);
    out.write(path_mark(table.has_path(point)));
    write_set(out, texts, table, point, graph.bits(table.analysis()));
    out.write(b"\n");
}

/// The text of a table: for each point in order the line `NAME PLACE: SET`, NAME being its procedure and PLACE its number
/// there; `NAME PLACE (no path): SET` where no valid path is. SET is what the bits are called, in the order of their numbers,
/// with `, ` between them, or `-` where there are none.
#[derive(Drop)]
pub struct TableText<'a> {
    graph: &'a Graph<'a>,
    table: &'a Table,
    texts: TextBlock,
}

impl<'a> Model for TableText<'a> {
    ghost use Rattle.std.specs.Prelude.{List, ℕ, codes};
    ghost use Rattle.flow_graph.specs.Universes.{bits as bits_of};
    ghost use Rattle.flow_team.specs.Tables.{IsTableOf, facts_of};
    ghost use Rattle.text_pieces.specs.code.Blocks.{HoldsTexts};
    ghost use Rattle.flow_texts.specs.Tables.{bit_text, table_text_of};

    ghost Value = { List ℕ };

    ghost view = { λ text. table_text_of text.graph.now text.table.now.analysis (facts_of text.table.now) };

    ghost invariant = { λ text. IsTableOf text.graph.now text.table.now
        × HoldsTexts (codes ", ") (bit_text text.graph.now text.table.now.analysis) (bits_of text.graph.now text.table.now.analysis) text.texts };
}

impl<'a> TableText<'a> {
    /// The text of this table, ready to be written.
    ///
    /// The condition: the table is of this graph. Fails only where memory runs out.
    pub fn of(
        alloc: Global,
        graph: &'a Graph<'a>,
        table: &'a Table,
    ) -> Result<TableText<'a>, OutOfMemory>
        requires { IsTableOf graph.now table.now }
        ensures { IfOk result (IsTableText graph.now table.now.analysis) }
    {
        let texts = texts_of_bits(alloc, graph, table.analysis())?;
        Ok(TableText {
            graph,
            table,
            texts,
        })
    }
}

impl<'a> Text for TableText<'a> {
    ghost bytes = { λ text. text };

    fn write<K: Sink>(&self, out: &mut Pieces<'_, K>) {
        for point in 0..self.graph.points() {
            write_point(out, self.graph, self.table, &self.texts, point);
        }
    }
}

/// The text of a table, made whole: that of `TableText`.
///
/// The condition: the table is of this graph. Its room grows by doubling; fails only where memory runs out.
pub fn table_text(alloc: Global, graph: &Graph<'_>, table: &Table) -> Result<Vec<u8>, OutOfMemory>
    requires { IsTableOf graph.now table.now }
    ensures { IfOk result (λ text. IsTableText graph.now table.now.analysis text.items) }
{
    let text = TableText::of(alloc, graph, table)?;
    whole_text(alloc, &text)
}
