// A picture in which the path of a use is marked.

ghost use Rattle.std.specs.Prelude.{◌≡◌, ◌<◌, ◌++◌, ◌&&◌, codes, decimal, flat_map, length, IfOk, IfSome, MatchOption};
ghost use Rattle.flow_graph.specs.Points.{point_count};
ghost use Rattle.report_answers.specs.code.Reported.{TellReport};
ghost use Rattle.flow_views.specs.Dots.{arrow};
ghost use Rattle.flow_views.specs.ViewTables.{AreViewTables};
ghost use Rattle.flow_paths.specs.Pictures.{IsDotWithPath, LacksUse, arrow_mark, hop_marks, path_legend, point_mark};
ghost use Rattle.flow_paths.specs.code.Doubted.{is_shown};
ghost use Rattle.text_pieces.specs.Pieces.{CanWrite, Writes};

use crate::OutOfMemory;
use crate::asked_use::use_named;
use crate::shown::{Shown, is_within, points_shown};
use crate::unset_paths::UnsetPaths;
use dot_texts::write_open_dot;
use flow_graph::Graph;
use flow_reports::UnsetUse;
use flow_texts::write_number;
use flow_views::{NameForm, View, ViewProgram, ViewTables};
use flow_why::Hop;
use report_answers::ReportAnswers;
use std::alloc::Global;
use std::marker::Model;
use text_pieces::{Pieces, Sink, Text};

// Writes a node once more, with its mark.
fn write_marked_point<K: Sink>(out: &mut Pieces<'_, K>, point: u32)
    requires { CanWrite K.Sink out.old }
    ensures { Writes K.Sink out.old out.new (codes "  " ++ decimal point ++ codes " [color=blue, penwidth=3];\n") }
{
    out.write(b"  ");
    write_number(out, point);
    out.write(b" [color=blue, penwidth=3];\n");
}

// Marks a node where it is shown.
fn write_point_mark<K: Sink>(out: &mut Pieces<'_, K>, shown: Shown, point: u32)
    requires { CanWrite K.Sink out.old }
    ensures { Writes K.Sink out.old out.new (point_mark (is_shown shown) point) }
{
    if !is_within(shown, point) {
        return;
    }
    write_marked_point(out, point);
}

// Writes an edge once more, with its mark and more attributes.
fn write_marked_arrow<K: Sink>(out: &mut Pieces<'_, K>, source: u32, target: u32, more: &[u8])
    requires { CanWrite K.Sink out.old }
    ensures { Writes K.Sink out.old out.new (arrow source target ++ codes " [color=blue, penwidth=3" ++ more.now ++ codes "];\n") }
{
    out.write(b"  ");
    write_number(out, source);
    out.write(b" -> ");
    write_number(out, target);
    out.write(b" [color=blue, penwidth=3");
    out.write(more);
    out.write(b"];\n");
}

// Whether both ends of an edge are shown.
fn are_within(shown: Shown, source: u32, target: u32) -> bool
    ensures { result ≡ (is_shown shown source && is_shown shown target) }
{
    is_within(shown, source) && is_within(shown, target)
}

// Marks an edge where both its ends are shown.
fn write_arrow_mark<K: Sink>(
    out: &mut Pieces<'_, K>,
    shown: Shown,
    source: u32,
    target: u32,
    more: &[u8],
)
    requires { CanWrite K.Sink out.old }
    ensures { Writes K.Sink out.old out.new (arrow_mark (is_shown shown) source target more.now) }
{
    if !are_within(shown, source, target) {
        return;
    }
    write_marked_arrow(out, source, target, more);
}

// Marks the point from which a hop goes, and its edge.
fn write_marks<K: Sink>(
    out: &mut Pieces<'_, K>,
    shown: Shown,
    source: u32,
    target: u32,
    more: &[u8],
)
    requires { CanWrite K.Sink out.old }
    ensures { Writes K.Sink out.old out.new (point_mark (is_shown shown) source ++ arrow_mark (is_shown shown) source target more.now) }
{
    write_point_mark(out, shown, source);
    write_arrow_mark(out, shown, source, target, more);
}

// Marks a hop.
fn write_hop_marks<K: Sink>(out: &mut Pieces<'_, K>, shown: Shown, hop: Hop)
    requires { CanWrite K.Sink out.old }
    ensures { Writes K.Sink out.old out.new (hop_marks (is_shown shown) hop) }
{
    match hop {
        Hop::Step { from, to } => write_marks(out, shown, from, to, b""),
        Hop::Enter { site: _, from, to } => write_marks(out, shown, from, to, b""),
        Hop::Pass {
            site: _,
            from,
            callee: _,
            to,
            effect: _,
        } => write_marks(out, shown, from, to, b", style=dashed, arrowhead=normal"),
    }
}

// Marks hops.
fn write_path_marks<K: Sink>(out: &mut Pieces<'_, K>, shown: Shown, hops: &[Hop])
    requires { CanWrite K.Sink out.old }
    ensures { Writes K.Sink out.old out.new (flat_map (hop_marks (is_shown shown)) hops.now) }
{
    for hop in hops {
        write_hop_marks(out, shown, *hop);
    }
}

// Writes what the legend says of the path, where there is one.
fn write_path_legend<K: Sink>(out: &mut Pieces<'_, K>, is_asked: bool)
    requires { CanWrite K.Sink out.old }
    ensures { Writes K.Sink out.old out.new (path_legend is_asked) }
{
    if !is_asked {
        return;
    }
    out.write(
        b"  subgraph \"cluster_legend\" {\n    legend8 [class=\"legend\", shape=box, label=\"on the path\", color=blue, penwidth=3];\n    \
        legend7 -> legend8 [class=\"legend\", style=invis];\n  }\n",
    );
}

/// The picture of a program as `DotText` has it, in which one path is marked: a way from the beginning of `main` to a use of a variable, on
/// which nothing sets it.
///
/// Each node and edge of the path is blue and thick. The line from a call that is passed as a whole is dashed and has a head. The graph is
/// strict: Graphviz then takes what is told of an edge twice as told of one.
pub struct PathDotText<'a> {
    shown: ViewProgram<'a>,
    points: Shown,
    paths: UnsetPaths,
    one: UnsetUse,
}

impl<'a> Model for PathDotText<'a> {
    ghost use Rattle.std.specs.Prelude.{◌≡◌, List, ℕ};
    ghost use Rattle.flow_views.specs.Dots.{open_dot};
    ghost use Rattle.flow_views.specs.code.ViewProgram.{AreShown, known_of};
    ghost use Rattle.flow_views.specs.declared.names.NameForm.TheVariants.{Escaped};
    ghost use Rattle.flow_paths.specs.Pictures.{marked_dot, path_legend};
    ghost use Rattle.flow_paths.specs.code.Doubted.{is_shown};
    ghost use Rattle.flow_paths.specs.code.UnsetPaths.{hops_at};

    ghost Value = { List ℕ };

    ghost view = { λ text. marked_dot (is_shown text.points) (open_dot text.shown.found.graph.now (known_of text.shown) text.shown.view)
        (hops_at text.paths text.one.point text.one.variable) text.one.point (path_legend text.shown.view.look.legend) };

    ghost invariant = { λ text. AreShown text.shown × (text.shown.names.form ≡ Escaped) };
}

impl Drop for PathDotText<'_> {
    // By hand: who gives it up then makes one call.
    fn drop(self) {
        let PathDotText {
            shown: _,
            points: _,
            paths: _,
            one: _,
        } = self;
    }
}

impl<'a> PathDotText<'a> {
    /// The picture with the path of the use that a text names by its line, or by its line and its variable (`12`, `12:x`): the first such use
    /// among those that a report tells of and that are shown. None where there is none.
    ///
    /// The conditions: the answers to what a report asks and the tables are of this graph, these of the analyses that are shown, and the
    /// procedure that is shown is one of its program. Fails only where memory runs out.
    pub fn of(
        alloc: Global,
        graph: &'a Graph<'a>,
        tables: &'a ViewTables,
        answers: &'a ReportAnswers,
        view: View,
        text: &[u8],
    ) -> Result<Option<PathDotText<'a>>, OutOfMemory>
        requires tables { AreViewTables graph.now view tables.now }
        requires answers { TellReport graph.now answers.now }
        requires procedure { IfSome view.procedure (λ procedure. procedure < length graph.now.procedure_names) }
        ensures { IfOk result (λ found. MatchOption found (LacksUse graph.now view text.now) (IsDotWithPath graph.now view text.now)) }
    {
        let shown = ViewProgram::of(alloc, graph, tables, answers, view, NameForm::Escaped)?;
        let points = points_shown(graph, view.procedure);
        let uses = shown.unset_uses(alloc)?;
        let Some(one) = use_named(alloc, graph, text, &uses)? else {
            return Ok(None);
        };
        let paths = UnsetPaths::of(alloc, graph, &[one])?;
        Ok(Some(PathDotText {
            shown,
            points,
            paths,
            one,
        }))
    }
}

impl<'a> Text for PathDotText<'a> {
    ghost bytes = { λ text. text };

    fn write<K: Sink>(&self, out: &mut Pieces<'_, K>) {
        out.write(b"strict ");
        write_open_dot(&self.shown, out);
        let hops = self.paths.hops(self.one.point, self.one.variable);
        write_path_marks(out, self.points, hops);
        write_point_mark(out, self.points, self.one.point);
        write_path_legend(out, self.shown.view.look.legend);
        out.write(b"}\n");
    }
}
