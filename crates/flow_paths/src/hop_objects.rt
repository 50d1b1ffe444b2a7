// Hops as lines of JSON have them.

ghost use Rattle.std.specs.Prelude.{◌≡◌, ◌++◌, codes, decimal, map};
ghost use Rattle.flow_views.specs.Json.{array};
ghost use Rattle.flow_paths.specs.Paths.{hop_object};
ghost use Rattle.text_pieces.specs.Pieces.{CanWrite, Writes};

use flow_texts::write_number;
use flow_why::Hop;
use text_pieces::{Pieces, Sink, write_if};

// Writes a step.
fn write_step<K: Sink>(out: &mut Pieces<'_, K>, from: u32, to: u32)
    requires { CanWrite K.Sink out.old }
    ensures { Writes K.Sink out.old out.new
        (codes "{\"kind\":\"step\",\"from\":" ++ decimal from ++ codes ",\"to\":" ++ decimal to ++ codes "}") }
{
    out.write(b"{\"kind\":\"step\",\"from\":");
    write_number(out, from);
    out.write(b",\"to\":");
    write_number(out, to);
    out.write(b"}");
}

// Writes a call that is left open.
fn write_enter<K: Sink>(out: &mut Pieces<'_, K>, site: u32, from: u32, to: u32)
    requires { CanWrite K.Sink out.old }
    ensures { Writes K.Sink out.old out.new
        (codes "{\"kind\":\"enter\",\"site\":" ++ decimal site ++ codes ",\"from\":" ++ decimal from ++ codes ",\"to\":" ++ decimal to ++ codes "}") }
{
    out.write(b"{\"kind\":\"enter\",\"site\":");
    write_number(out, site);
    out.write(b",\"from\":");
    write_number(out, from);
    out.write(b",\"to\":");
    write_number(out, to);
    out.write(b"}");
}

// Writes a call that is passed as a whole.
fn write_pass<K: Sink>(out: &mut Pieces<'_, K>, site: u32, callee: u32, from: u32, to: u32)
    requires { CanWrite K.Sink out.old }
    ensures { Writes K.Sink out.old out.new
        (codes "{\"kind\":\"pass\",\"site\":" ++ decimal site ++ codes ",\"callee\":" ++ decimal callee
        ++ codes ",\"from\":" ++ decimal from ++ codes ",\"to\":" ++ decimal to ++ codes "}") }
{
    out.write(b"{\"kind\":\"pass\",\"site\":");
    write_number(out, site);
    out.write(b",\"callee\":");
    write_number(out, callee);
    out.write(b",\"from\":");
    write_number(out, from);
    out.write(b",\"to\":");
    write_number(out, to);
    out.write(b"}");
}

// Writes a hop.
fn write_hop<K: Sink>(out: &mut Pieces<'_, K>, hop: Hop)
    requires { CanWrite K.Sink out.old }
    ensures { Writes K.Sink out.old out.new (hop_object hop) }
{
    match hop {
        Hop::Step { from, to } => write_step(out, from, to),
        Hop::Enter { site, from, to } => write_enter(out, site, from, to),
        Hop::Pass {
            site,
            from,
            callee,
            to,
            effect: _,
        } => write_pass(out, site, callee, from, to),
    }
}

/// Writes hops as an array.
pub(crate) fn write_hops<K: Sink>(out: &mut Pieces<'_, K>, hops: &[Hop])
    requires { CanWrite K.Sink out.old }
    ensures { Writes K.Sink out.old out.new (array (map hop_object hops.now)) }
{
    out.write(b"[");
    for (place, hop) in hops.iter().enumerate() {
        write_if(out, 0 < place, b",");
        write_hop(out, *hop);
    }
    out.write(b"]");
}
