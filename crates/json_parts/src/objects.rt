// Lines of a part: of its remarks, its first and its last one.

ghost use Rattle.std.specs.Prelude.{◌≡◌, ◌++◌, ◌<◌, [], decimal, if◌then◌else◌};
ghost use Rattle.flow_graph.specs.Points.{point_count};
ghost use Rattle.flow_reports.specs.code.Findings.{AreChosenFindings, IsRemarkIn};
ghost use Rattle.flow_parts.specs.Cuts.{is_in_part};
ghost use Rattle.flow_views.specs.Json.{remark_object};
ghost use Rattle.json_parts.specs.JsonParts.{count_object, heading_object, last_object};
ghost use Rattle.text_pieces.specs.Pieces.{CanWrite, Writes};

use flow_graph::Graph;
use flow_parts::is_remark_of_part;
use flow_reports::{ChosenForm, Findings, Remark};
use flow_texts::write_number;
use json_texts::write_chosen_head;
use part_texts::Share;
use text_pieces::{Pieces, Sink};

// Writes a number behind what stands before it.
fn write_numbered<K: Sink>(out: &mut Pieces<'_, K>, before: &[u8], number: u32)
    requires { CanWrite K.Sink out.old }
    ensures { Writes K.Sink out.old out.new (before.now ++ decimal number) }
{
    out.write(before);
    write_number(out, number);
}

/// Writes the first line of a part.
pub(crate) fn write_heading<K: Sink>(out: &mut Pieces<'_, K>, digest: &[u8], share: Share)
    requires { CanWrite K.Sink out.old }
    ensures { Writes K.Sink out.old out.new (heading_object digest.now share.count share.part) }
{
    write_numbered(
        out,
        b"{\"type\":\"part\",\"version\":1,\"part\":",
        share.part,
    );
    write_numbered(out, b",\"parts\":", share.count);
    out.write(b",\"digest\":\"");
    out.write(digest);
    out.write(b"\"}\n");
}

/// Writes the last line of a part.
pub(crate) fn write_last<K: Sink>(out: &mut Pieces<'_, K>, share: Share)
    requires { CanWrite K.Sink out.old }
    ensures { Writes K.Sink out.old out.new (last_object share.part) }
{
    write_numbered(out, b"{\"type\":\"end-part\",\"part\":", share.part);
    out.write(b"}\n");
}

/// Writes the line that ends all lines.
pub(crate) fn write_count<K: Sink>(out: &mut Pieces<'_, K>, graph: &Graph<'_>)
    requires { CanWrite K.Sink out.old }
    ensures { Writes K.Sink out.old out.new (count_object graph.now) }
{
    write_numbered(out, b"{\"type\":\"end\",\"points\":", graph.points());
    out.write(b"}\n");
}

// Writes a remark as an object.
fn write_object<K: Sink>(out: &mut Pieces<'_, K>, found: &Findings<'_>, point: u32, remark: Remark)
    requires ready { CanWrite K.Sink out.old }
    requires found { AreChosenFindings found.now }
    requires point { point < point_count found.now.graph.now }
    requires remark { IsRemarkIn found.now.graph.now remark }
    ensures { Writes K.Sink out.old out.new (remark_object found.now.graph.now point remark) }
{
    write_chosen_head(out, found, point, remark);
    out.write(b"}\n");
}

/// The remarks of a part, each as an object.
#[derive(Clone, Copy)]
pub(crate) struct PartObjects {
    pub(crate) share: Share,
}

impl ChosenForm for PartObjects {
    ghost text = { λ objects program point remark.
        if is_in_part program objects.share.count objects.share.part remark then remark_object program point remark else [] };

    ghost is_for = { λ _ _. Unit {0} };

    fn write_remark<K: Sink>(
        &self,
        out: &mut Pieces<'_, K>,
        found: &Findings<'_>,
        point: u32,
        remark: Remark,
    ) {
        if !is_remark_of_part(found.graph, self.share.count, self.share.part, remark) {
            return;
        }
        write_object(out, found, point, remark);
    }
}
