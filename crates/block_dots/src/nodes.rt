// Blocks as nodes.

ghost use Rattle.std.specs.Prelude.{◌≡◌, ◌<◌, ◌++◌, true, not, flat_map, map, if◌then◌else◌};
ghost use Rattle.flow_graph.specs.Points.{point_count};
ghost use Rattle.flow_reports.specs.Reports.{remark_text, remarks_at};
ghost use Rattle.flow_views.specs.Dots.{label_line, text_if};
ghost use Rattle.flow_views.specs.Views.{analysis_if, is_chosen};
ghost use Rattle.flow_views.specs.code.ViewProgram.{AreShown, IsShownTable, known_of};
ghost use Rattle.flow_views.specs.declared.names.NameForm.TheVariants.{Escaped};
ghost use Rattle.point_sets.specs.SetLines.{columns};
ghost use Rattle.point_sets.specs.Sets.{has_behind};
ghost use Rattle.point_sets.specs.code.Lines.{set_from};
ghost use Rattle.text_pieces.specs.Pieces.{CanWrite, Writes};
ghost use Rattle.text_pieces.specs.Strings.{escaped};
ghost use Rattle.block_dots.specs.BlockDots.{block_body, block_lines, block_node, facts_in_lines, if_leader, label_text, lines_of, set_names};
ghost use Rattle.block_dots.specs.BlockDots.{statement_lines, tooltip};
ghost use Rattle.block_dots.specs.BlockSets.{sets_of};
ghost use Rattle.block_dots.specs.code.Blocks.{IsShownBlock, points_of};
ghost use Rattle.block_dots.specs.declared.block_set.BlockSet.TheVariants.{Gen, In, Kill, Out};

use crate::block_bits::{BlockBits, write_block_bits};
use crate::block_marks::{marks_of, write_block_names};
use crate::block_set::{BlockSet, set_word};
use crate::blocks::{Block, block_of, is_leader};
use dot_texts::{DotLine, write_label_lines, write_look, write_set_on, write_title};
use flow_graph::Analysis;
use flow_team::Table;
use flow_texts::write_number;
use flow_views::{PointForm, ViewProgram, analysis_name};
use point_sets::{Side, has_behind};
use text_pieces::{Pieces, Sink};

// Writes a statement's line, and the report's remarks below it.
fn write_statement_lines<K: Sink>(shown: &ViewProgram<'_>, out: &mut Pieces<'_, K>, point: u32)
    requires ready { CanWrite K.Sink out.old }
    requires shown { AreShown shown.now }
    requires point { point < point_count shown.now.found.graph.now }
    ensures { Writes K.Sink out.old out.new (statement_lines shown.now.found.graph.now (known_of shown.now) point) }
{
    write_title(shown, out, point);
    out.write(b"\\l");
    shown.write_remarks_at(&DotLine, out, point);
}

// Writes those of a block.
fn write_statements<K: Sink>(shown: &ViewProgram<'_>, out: &mut Pieces<'_, K>, block: Block)
    requires ready { CanWrite K.Sink out.old }
    requires shown { AreShown shown.now }
    requires block { IsShownBlock shown.now block }
    ensures { Writes K.Sink out.old out.new
        (flat_map (statement_lines shown.now.found.graph.now (known_of shown.now)) (points_of block)) }
{
    for point in block.leader..block.end {
        write_statement_lines(shown, out, point);
    }
}

// Writes what a block generates, or kills, behind so many signs of its first line.
fn write_bits<K: Sink>(
    shown: &ViewProgram<'_>,
    out: &mut Pieces<'_, K>,
    table: &Table,
    block: Block,
    kill: bool,
    column: usize,
)
    requires ready { CanWrite K.Sink out.old }
    requires shown { AreShown shown.now }
    requires form { shown.now.names.form ≡ Escaped }
    requires block { IsShownBlock shown.now block }
    requires column { column < columns }
    ensures { Writes K.Sink out.old out.new (set_from column (map escaped
        (set_names shown.now.found.graph.now (known_of shown.now) shown.now.view block.leader table.now.analysis (if kill then Kill else Gen)))) }
{
    let analysis = table.analysis();
    let set = BlockBits {
        graph: shown.found.graph,
        analysis,
        block,
        kill,
        hides_entry: shown.view.look.hides_entry,
    };
    write_block_bits(out, shown.names(analysis), &set, column);
}

// Writes a set of a block.
fn write_set<K: Sink>(
    shown: &ViewProgram<'_>,
    out: &mut Pieces<'_, K>,
    table: &Table,
    block: Block,
    set: BlockSet,
    column: usize,
)
    requires ready { CanWrite K.Sink out.old }
    requires shown { AreShown shown.now }
    requires form { shown.now.names.form ≡ Escaped }
    requires table { IsShownTable shown.now table.now }
    requires block { IsShownBlock shown.now block }
    requires behind { set ≡ Out → has_behind shown.now.found.graph.now block.leader ≡ true }
    requires column { column < columns }
    ensures { Writes K.Sink out.old out.new (set_from column (map escaped
        (set_names shown.now.found.graph.now (known_of shown.now) shown.now.view block.leader table.now.analysis set))) }
{
    match set {
        BlockSet::Gen => write_bits(shown, out, table, block, false, column),
        BlockSet::Kill => write_bits(shown, out, table, block, true, column),
        BlockSet::In => write_set_on(shown, out, table, block.leader, Side::Before, column),
        BlockSet::Out => write_set_on(shown, out, table, block.end - 1, Side::Behind, column),
    }
}

// Writes it in lines.
fn write_lines_of<K: Sink>(
    shown: &ViewProgram<'_>,
    out: &mut Pieces<'_, K>,
    table: &Table,
    block: Block,
    set: BlockSet,
)
    requires ready { CanWrite K.Sink out.old }
    requires shown { AreShown shown.now }
    requires form { shown.now.names.form ≡ Escaped }
    requires table { IsShownTable shown.now table.now }
    requires block { IsShownBlock shown.now block }
    requires behind { set ≡ Out → has_behind shown.now.found.graph.now block.leader ≡ true }
    ensures { Writes K.Sink out.old out.new (flat_map label_line
        (lines_of shown.now.found.graph.now (known_of shown.now) shown.now.view block.leader table.now.analysis set)) }
{
    let name = analysis_name(table.analysis());
    let word = set_word(set);
    out.write(name);
    out.write(word);
    write_set(shown, out, table, block, set, name.len() + word.len());
    out.write(b"\\l");
}

// Writes the sets of a block whose last statement has a set behind it.
fn write_all_sets<K: Sink>(
    shown: &ViewProgram<'_>,
    out: &mut Pieces<'_, K>,
    table: &Table,
    block: Block,
)
    requires ready { CanWrite K.Sink out.old }
    requires shown { AreShown shown.now }
    requires form { shown.now.names.form ≡ Escaped }
    requires table { IsShownTable shown.now table.now }
    requires block { IsShownBlock shown.now block }
    requires behind { has_behind shown.now.found.graph.now block.leader ≡ true }
    ensures { Writes K.Sink out.old out.new (flat_map label_line (flat_map
        (lines_of shown.now.found.graph.now (known_of shown.now) shown.now.view block.leader table.now.analysis) (sets_of true))) }
{
    write_lines_of(shown, out, table, block, BlockSet::Gen);
    write_lines_of(shown, out, table, block, BlockSet::Kill);
    write_lines_of(shown, out, table, block, BlockSet::In);
    write_lines_of(shown, out, table, block, BlockSet::Out);
}

// Writes the sets of a block in an analysis.
fn write_sets<K: Sink>(
    shown: &ViewProgram<'_>,
    out: &mut Pieces<'_, K>,
    table: &Table,
    block: Block,
)
    requires ready { CanWrite K.Sink out.old }
    requires shown { AreShown shown.now }
    requires form { shown.now.names.form ≡ Escaped }
    requires table { IsShownTable shown.now table.now }
    requires block { IsShownBlock shown.now block }
    ensures { Writes K.Sink out.old out.new (flat_map label_line
        (block_lines shown.now.found.graph.now (known_of shown.now) shown.now.view block.leader table.now.analysis)) }
{
    if has_behind(shown.found.graph, block.leader) {
        write_all_sets(shown, out, table, block);
    } else {
        write_lines_of(shown, out, table, block, BlockSet::In);
    }
}

// Writes them where the analysis is chosen.
fn write_fact_if<K: Sink>(
    shown: &ViewProgram<'_>,
    out: &mut Pieces<'_, K>,
    block: Block,
    analysis: Analysis,
)
    requires ready { CanWrite K.Sink out.old }
    requires shown { AreShown shown.now }
    requires form { shown.now.names.form ≡ Escaped }
    requires block { IsShownBlock shown.now block }
    ensures { Writes K.Sink out.old out.new
        (flat_map (λ a. flat_map label_line (block_lines shown.now.found.graph.now (known_of shown.now) shown.now.view block.leader a))
        (analysis_if (is_chosen shown.now.view.facts analysis) analysis)) }
{
    let Some(table) = shown.table(analysis) else {
        return;
    };
    write_sets(shown, out, table, block);
}

// Writes what the chosen analyses tell of a block.
fn write_facts<K: Sink>(shown: &ViewProgram<'_>, out: &mut Pieces<'_, K>, block: Block)
    requires ready { CanWrite K.Sink out.old }
    requires shown { AreShown shown.now }
    requires form { shown.now.names.form ≡ Escaped }
    requires block { IsShownBlock shown.now block }
    ensures { Writes K.Sink out.old out.new (facts_in_lines shown.now.found.graph.now (known_of shown.now) shown.now.view block.leader) }
{
    for analysis in Analysis::ALL {
        write_fact_if(shown, out, block, analysis);
    }
}

// Writes the facts of a block where they stand in its node.
fn write_label_facts<K: Sink>(shown: &ViewProgram<'_>, out: &mut Pieces<'_, K>, block: Block)
    requires ready { CanWrite K.Sink out.old }
    requires shown { AreShown shown.now }
    requires form { shown.now.names.form ≡ Escaped }
    requires block { IsShownBlock shown.now block }
    ensures { Writes K.Sink out.old out.new (text_if (not shown.now.view.look.hovers)
        (facts_in_lines shown.now.found.graph.now (known_of shown.now) shown.now.view block.leader)) }
{
    if shown.view.look.hovers {
        return;
    }
    write_facts(shown, out, block);
}

// Writes the lines of a node.
fn write_label<K: Sink>(shown: &ViewProgram<'_>, out: &mut Pieces<'_, K>, block: Block)
    requires ready { CanWrite K.Sink out.old }
    requires shown { AreShown shown.now }
    requires form { shown.now.names.form ≡ Escaped }
    requires block { IsShownBlock shown.now block }
    ensures { Writes K.Sink out.old out.new (label_text shown.now.found.graph.now (known_of shown.now) shown.now.view block.leader) }
{
    write_label_lines(shown, out, block.leader, shown.labels(block.leader));
    write_statements(shown, out, block);
    write_label_facts(shown, out, block);
}

// Writes the facts of a block where they stand in its tooltip.
fn write_tooltip<K: Sink>(shown: &ViewProgram<'_>, out: &mut Pieces<'_, K>, block: Block)
    requires ready { CanWrite K.Sink out.old }
    requires shown { AreShown shown.now }
    requires form { shown.now.names.form ≡ Escaped }
    requires block { IsShownBlock shown.now block }
    ensures { Writes K.Sink out.old out.new (tooltip shown.now.found.graph.now (known_of shown.now) shown.now.view block.leader) }
{
    if !shown.view.look.hovers {
        return;
    }
    out.write(b", tooltip=\"");
    write_facts(shown, out, block);
    out.write(b"\"");
}

// Writes a node behind its number.
fn write_body<K: Sink>(shown: &ViewProgram<'_>, out: &mut Pieces<'_, K>, block: Block)
    requires ready { CanWrite K.Sink out.old }
    requires shown { AreShown shown.now }
    requires form { shown.now.names.form ≡ Escaped }
    requires block { IsShownBlock shown.now block }
    ensures { Writes K.Sink out.old out.new (block_body shown.now.found.graph.now (known_of shown.now) shown.now.view block.leader) }
{
    let marks = marks_of(shown, block);
    write_block_names(out, block.leader, marks);
    write_label(shown, out, block);
    out.write(b"\"");
    write_tooltip(shown, out, block);
    write_look(out, marks);
    out.write(b"];\n");
}

// Writes a node.
fn write_node<K: Sink>(shown: &ViewProgram<'_>, out: &mut Pieces<'_, K>, block: Block)
    requires ready { CanWrite K.Sink out.old }
    requires shown { AreShown shown.now }
    requires form { shown.now.names.form ≡ Escaped }
    requires block { IsShownBlock shown.now block }
    ensures { Writes K.Sink out.old out.new (block_node shown.now.found.graph.now (known_of shown.now) shown.now.view block.leader) }
{
    out.write(b"    ");
    write_number(out, block.leader);
    write_body(shown, out, block);
}

/// A block as a node, where one begins at the point.
#[derive(Clone, Copy)]
pub(crate) struct BlockNodes;

impl PointForm for BlockNodes {
    ghost name_form = { λ _. Escaped };

    ghost text = { λ _ shown. if_leader shown.found.graph.now (block_node shown.found.graph.now (known_of shown) shown.view) };

    fn write_point<K: Sink>(&self, out: &mut Pieces<'_, K>, shown: &ViewProgram<'_>, point: u32) {
        if out.has_failed() || !is_leader(shown.found.graph, point) {
            return;
        }
        write_node(shown, out, block_of(shown, point));
    }
}
