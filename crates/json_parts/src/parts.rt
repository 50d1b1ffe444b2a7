// The text of a part of lines of JSON.

ghost use Rattle.std.specs.Prelude.{◌≡◌, ◌<◌, ◌≤◌, IfOk};
ghost use Rattle.flow_graph.specs.Edges.{edges_from};
ghost use Rattle.flow_graph.specs.Points.{point_count};
ghost use Rattle.flow_parts.specs.code.Bits.{AreOfPart};
ghost use Rattle.flow_reports.specs.code.Findings.{AreChosenFindings, knowledge_of};
ghost use Rattle.flow_views.specs.Json.{point_line};
ghost use Rattle.json_parts.specs.JsonParts.{IsJsonPart, count_object, in_first, json_part_of, no_facts, point_lines, remark_objects};
ghost use Rattle.json_parts.specs.code.Edges.{HasEdges};
ghost use Rattle.flow_parts.specs.Parts.{part_remarks};
ghost use Rattle.report_answers.specs.code.Reported.{TellChosen};
ghost use Rattle.text_pieces.specs.Pieces.{CanWrite, Writes};

use crate::OutOfMemory;
use crate::objects::{PartObjects, write_count, write_heading, write_last};
use flow_graph::{Edge, Graph};
use flow_parts::part_bits;
use flow_reports::Findings;
use flow_views::successors;
use json_texts::{PointOutline, write_bare_point, write_program};
use part_texts::Share;
use report_answers::ReportAnswers;
use smallvec::SmallVec;
use std::alloc::Global;
use std::marker::Model;
use text_pieces::{Pieces, Sink, Text, whole_text};

/// A part of the lines of JSON of a program, without facts: a line of the part, the line of the program, the lines of the part's remarks, and a
/// line that ends the part. Part 1 has the lines of points too, and the one that ends them all.
///
/// A part has the remarks that the same part of a report has.
#[derive(Drop)]
pub struct JsonPartText<'a> {
    found: Findings<'a>,
    // The edges out of each point in part 1, and none in others.
    edges: Vec<SmallVec<Edge, 2, Global>>,
    digest: &'a [u8],
    share: Share,
}

impl<'a> Model for JsonPartText<'a> {
    ghost use Rattle.std.specs.Prelude.{List, ℕ};
    ghost use Rattle.flow_reports.specs.code.Findings.{AreChosenFindings, knowledge_of};
    ghost use Rattle.json_parts.specs.JsonParts.{json_part_of};
    ghost use Rattle.json_parts.specs.code.Edges.{HasEdges};

    ghost Value = { List ℕ };

    ghost view = { λ text. json_part_of text.digest.now text.found.graph.now (knowledge_of text.found) text.share.count text.share.part };

    ghost invariant = { λ text. AreChosenFindings text.found × HasEdges text.found.graph.now text.share.part text.edges.items };
}

// The edges out of each point, where they are of part 1.
fn edges_of(
    alloc: Global,
    graph: &Graph<'_>,
    part: u32,
) -> Result<Vec<SmallVec<Edge, 2, Global>>, OutOfMemory>
    ensures { IfOk result (λ lists. HasEdges graph.now part lists.items) }
{
    if part == 1 {
        successors(alloc, graph)
    } else {
        Ok(Vec::new(alloc))
    }
}

// The edges out of a point.
fn edges_at<'s>(graph: &Graph<'_>, edges: &'s [SmallVec<Edge, 2, Global>], point: u32) -> &'s [Edge]
    requires edges { HasEdges graph.now 1 edges.now }
    requires point { point < point_count graph.now }
    ensures { result.now ≡ edges_from graph.now point }
{
    let _ = graph;
    edges[point as usize].as_slice()
}

// Whether a point is doubtful.
fn is_doubtful(found: &Findings<'_>, point: u32) -> bool
    requires found { AreChosenFindings found.now }
    requires point { point < point_count found.now.graph.now }
    ensures { result ≡ (knowledge_of found.now).doubtful point }
{
    found.doubtful[point as usize]
}

// Writes the line of a point.
fn write_point<K: Sink>(
    out: &mut Pieces<'_, K>,
    found: &Findings<'_>,
    edges: &[SmallVec<Edge, 2, Global>],
    point: u32,
)
    requires ready { CanWrite K.Sink out.old }
    requires found { AreChosenFindings found.now }
    requires edges { HasEdges found.now.graph.now 1 edges.now }
    requires point { point < point_count found.now.graph.now }
    ensures { Writes K.Sink out.old out.new (point_line found.now.graph.now (knowledge_of found.now) no_facts point) }
{
    let outline = PointOutline {
        graph: found.graph,
        point,
        edges: edges_at(found.graph, edges, point),
        doubtful: is_doubtful(found, point),
    };
    write_bare_point(out, &outline);
}

// Writes the lines of points.
fn write_points<K: Sink>(
    out: &mut Pieces<'_, K>,
    found: &Findings<'_>,
    edges: &[SmallVec<Edge, 2, Global>],
)
    requires ready { CanWrite K.Sink out.old }
    requires found { AreChosenFindings found.now }
    requires edges { HasEdges found.now.graph.now 1 edges.now }
    ensures { Writes K.Sink out.old out.new (point_lines found.now.graph.now (knowledge_of found.now)) }
{
    for point in 0..found.graph.points() {
        write_point(out, found, edges, point);
    }
}

// Writes the lines of points in part 1, and nothing in others.
fn write_points_if<K: Sink>(
    out: &mut Pieces<'_, K>,
    found: &Findings<'_>,
    edges: &[SmallVec<Edge, 2, Global>],
    part: u32,
)
    requires ready { CanWrite K.Sink out.old }
    requires found { AreChosenFindings found.now }
    requires edges { HasEdges found.now.graph.now part edges.now }
    ensures { Writes K.Sink out.old out.new (in_first part (point_lines found.now.graph.now (knowledge_of found.now))) }
{
    if part != 1 {
        return;
    }
    write_points(out, found, edges);
}

// Writes the lines of a part's remarks.
fn write_remarks<K: Sink>(out: &mut Pieces<'_, K>, found: &Findings<'_>, share: Share)
    requires ready { CanWrite K.Sink out.old }
    requires found { AreChosenFindings found.now }
    ensures { Writes K.Sink out.old out.new
        (remark_objects found.now.graph.now (part_remarks found.now.graph.now (knowledge_of found.now) share.count share.part)) }
{
    for point in 0..found.graph.points() {
        found.write_chosen_remarks(&PartObjects { share }, out, point);
    }
}

// Writes the line that ends all lines in part 1, and nothing in others.
fn write_count_if<K: Sink>(out: &mut Pieces<'_, K>, graph: &Graph<'_>, part: u32)
    requires { CanWrite K.Sink out.old }
    ensures { Writes K.Sink out.old out.new (in_first part (count_object graph.now)) }
{
    if part != 1 {
        return;
    }
    write_count(out, graph);
}

impl<'a> JsonPartText<'a> {
    /// A part of the lines, ready to be written, of a program of this digest.
    ///
    /// The conditions: the answers are to what a report on this graph's program asks of the bits of the part, as `part_bits` of `flow_parts`
    /// has them, and of no others. Fails only where memory runs out.
    pub fn of(
        alloc: Global,
        graph: &'a Graph<'a>,
        answers: &'a ReportAnswers,
        digest: &'a [u8],
        share: Share,
    ) -> Result<JsonPartText<'a>, OutOfMemory>
        requires answers { TellChosen answers.now.chosen graph.now answers.now }
        requires part { AreOfPart graph.now share.count share.part answers.now.chosen }
        ensures { IfOk result (IsJsonPart graph.now digest.now share.count share.part) }
    {
        let found = Findings::of_chosen(alloc, graph, answers)?;
        let edges = edges_of(alloc, graph, share.part)?;
        Ok(JsonPartText {
            found,
            edges,
            digest,
            share,
        })
    }
}

impl<'a> Text for JsonPartText<'a> {
    ghost bytes = { λ text. text };

    fn write<K: Sink>(&self, out: &mut Pieces<'_, K>) {
        write_heading(out, self.digest, self.share);
        write_program(out, self.found.graph);
        write_points_if(out, &self.found, &self.edges, self.share.part);
        write_remarks(out, &self.found, self.share);
        write_count_if(out, self.found.graph, self.share.part);
        write_last(out, self.share);
    }
}

/// A part of the lines, made whole, of what is found on the calling thread. Fails as [`ReportAnswers`] do.
pub fn json_part_here(
    alloc: Global,
    graph: &Graph<'_>,
    digest: &[u8],
    share: Share,
) -> Result<Vec<u8>, OutOfMemory>
    ensures { IfOk result (λ text. IsJsonPart graph.now digest.now share.count share.part text.items) }
{
    let answers = ReportAnswers::chosen_here(
        alloc,
        graph,
        part_bits(graph, share.count, share.part),
    )?;
    let text = JsonPartText::of(alloc, graph, &answers, digest, share)?;
    whole_text(alloc, &text)
}
