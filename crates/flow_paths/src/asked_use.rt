// The use that a text names.

ghost use Rattle.std.specs.Prelude.{◌≡◌, ◌<◌, All, IfOk, length};
ghost use Rattle.std.specs.List.{filter};
ghost use Rattle.flow_graph.specs.Points.{point_count};
ghost use Rattle.flow_paths.specs.Pictures.{first_use, is_named};
ghost use Rattle.flow_paths.specs.code.UnsetPaths.{IsUnsetUse};

use crate::OutOfMemory;
use flow_graph::Graph;
use flow_reports::UnsetUse;
use flow_texts::line;
use std::alloc::Global;

// Whether a text names a use: by its line, or by its line and its variable.
fn names_use(
    alloc: Global,
    graph: &Graph<'_>,
    text: &[u8],
    one: UnsetUse,
) -> Result<bool, OutOfMemory>
    requires { IsUnsetUse graph.now one }
    ensures { IfOk result (λ named. named ≡ is_named graph.now text.now one) }
{
    let number = line(graph, one.point);
    let mut place = format!(in alloc; "{number}")?.into_bytes();
    if text == place.as_slice() {
        return Ok(true);
    }
    place.extend_from_slice(b":")?;
    place.extend_from_slice(graph.program().variable(one.variable))?;
    Ok(text == place.as_slice())
}

/// The first of some uses that a text names: by its line, or by its line and its variable (`12`, `12:x`). Fails only where memory runs out.
pub(crate) fn use_named(
    alloc: Global,
    graph: &Graph<'_>,
    text: &[u8],
    uses: &[UnsetUse],
) -> Result<Option<UnsetUse>, OutOfMemory>
    requires { All (IsUnsetUse graph.now) uses.now }
    ensures { IfOk result (λ found. found ≡ first_use (filter (is_named graph.now text.now) uses.now)) }
{
    for one in uses {
        if names_use(alloc, graph, text, *one)? {
            return Ok(Some(*one));
        }
    }
    Ok(None)
}
