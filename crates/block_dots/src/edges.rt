// Edges between blocks.

ghost use Rattle.std.specs.Prelude.{◌≡◌, ◌<◌, ◌++◌, All, flat_map, codes};
ghost use Rattle.flow_graph.specs.Points.{point_count};
ghost use Rattle.flow_views.specs.Dots.{arrow, outcome_mark};
ghost use Rattle.flow_views.specs.Views.{outcome};
ghost use Rattle.flow_views.specs.code.ViewProgram.{AreShown, IsEndIn};
ghost use Rattle.flow_views.specs.declared.names.NameForm.TheVariants.{Escaped};
ghost use Rattle.text_pieces.specs.Pieces.{CanWrite, Writes};
ghost use Rattle.block_dots.specs.BlockDots.{block_edge, edge_lines, if_leader, shown_edge};
ghost use Rattle.block_dots.specs.code.Blocks.{IsShownBlock};

use crate::blocks::{Block, block_of, is_leader};
use dot_texts::{shows_edge, write_arrow, write_outcome, write_passage, write_passed_call};
use flow_graph::Edge;
use flow_views::{PointForm, ViewProgram};
use text_pieces::{Pieces, Sink};

// Writes a step out of a block that begins at a leader.
fn write_step<K: Sink>(
    shown: &ViewProgram<'_>,
    out: &mut Pieces<'_, K>,
    leader: u32,
    source: u32,
    target: u32,
)
    requires ready { CanWrite K.Sink out.old }
    requires shown { AreShown shown.now }
    requires source { source < point_count shown.now.found.graph.now }
    ensures { Writes K.Sink out.old out.new
        (arrow leader target ++ outcome_mark (outcome shown.now.found.graph.now source target) ++ codes ";\n") }
{
    write_arrow(out, leader, target);
    write_outcome(shown, out, source, target);
    out.write(b";\n");
}

// Writes an edge out of it.
fn write_edge<K: Sink>(shown: &ViewProgram<'_>, out: &mut Pieces<'_, K>, leader: u32, edge: Edge)
    requires ready { CanWrite K.Sink out.old }
    requires shown { AreShown shown.now }
    requires edge { IsEndIn shown.now.found.graph.now edge }
    ensures { Writes K.Sink out.old out.new (block_edge shown.now.found.graph.now leader edge) }
{
    match edge {
        Edge::Step { from, to } => write_step(shown, out, leader, from, to),
        Edge::Call { site, to, .. } => write_passage(shown, out, leader, to, b"call", site),
        Edge::Ret { site, to, .. } => write_passage(shown, out, leader, to, b"return", site),
    }
}

// Writes it where it is shown.
fn write_shown_edge<K: Sink>(
    shown: &ViewProgram<'_>,
    out: &mut Pieces<'_, K>,
    leader: u32,
    edge: Edge,
)
    requires ready { CanWrite K.Sink out.old }
    requires shown { AreShown shown.now }
    requires edge { IsEndIn shown.now.found.graph.now edge }
    ensures { Writes K.Sink out.old out.new (shown_edge shown.now.found.graph.now shown.now.view leader edge) }
{
    if !shows_edge(shown, edge) {
        return;
    }
    write_edge(shown, out, leader, edge);
}

// Writes those of some edges that are shown.
fn write_shown_edges<K: Sink>(
    shown: &ViewProgram<'_>,
    out: &mut Pieces<'_, K>,
    leader: u32,
    edges: &[Edge],
)
    requires ready { CanWrite K.Sink out.old }
    requires shown { AreShown shown.now }
    requires edges { All (IsEndIn shown.now.found.graph.now) edges.now }
    ensures { Writes K.Sink out.old out.new (flat_map (shown_edge shown.now.found.graph.now shown.now.view leader) edges.now) }
{
    for edge in edges {
        write_shown_edge(shown, out, leader, *edge);
    }
}

// Writes the edges of a block.
fn write_edges<K: Sink>(shown: &ViewProgram<'_>, out: &mut Pieces<'_, K>, block: Block)
    requires ready { CanWrite K.Sink out.old }
    requires shown { AreShown shown.now }
    requires block { IsShownBlock shown.now block }
    ensures { Writes K.Sink out.old out.new (edge_lines shown.now.found.graph.now shown.now.view block.leader) }
{
    write_shown_edges(shown, out, block.leader, shown.edges(block.end - 1));
    write_passed_call(shown, out, block.leader);
}

/// The edges of a block, where one begins at the point.
#[derive(Clone, Copy)]
pub(crate) struct BlockEdges;

impl PointForm for BlockEdges {
    ghost name_form = { λ _. Escaped };

    ghost text = { λ _ shown. if_leader shown.found.graph.now (edge_lines shown.found.graph.now shown.view) };

    fn write_point<K: Sink>(&self, out: &mut Pieces<'_, K>, shown: &ViewProgram<'_>, point: u32) {
        if out.has_failed() || !is_leader(shown.found.graph, point) {
            return;
        }
        write_edges(shown, out, block_of(shown, point));
    }
}
