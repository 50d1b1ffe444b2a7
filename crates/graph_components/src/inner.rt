// The arcs between nodes of one level: only these can lead there and back.

ghost use Rattle.std.specs.Prelude.{◌≡◌, IfOk, OnOk, ◌++◌, [], ◌∷◌, if◌then◌else◌};
ghost use Rattle.std.specs.List.{filter};
ghost use Rattle.graph_components.specs.code.Levels.{AreLevels, is_level};
ghost use Rattle.graph_components.specs.code.Targets.{AreWithin};

use crate::OutOfMemory;
use crate::arc::Arc;
use std::alloc::Global;

// Puts an arc last, where it is an inner one.
fn put_if(arcs: &mut Vec<Arc>, is_inner: bool, arc: Arc) -> Result<(), OutOfMemory>
    ensures { OnOk result (arcs.new.items ≡ arcs.old.items ++ (if is_inner then arc ∷ [] else [])) }
{
    if is_inner {
        arcs.push(arc)?;
    }
    Ok(())
}

/// The arcs between nodes of one level.
pub(crate) fn inner_arcs(
    alloc: Global,
    arcs: &[Arc],
    levels: &[u32],
    count: u32,
) -> Result<Vec<Arc>, OutOfMemory>
    requires within { AreWithin count arcs.now }
    requires levels { AreLevels arcs.now count levels.now }
    ensures { IfOk result (λ inner. inner.items ≡ filter (is_level levels.now) arcs.now) }
{
    let _ = count;
    let mut inner = Vec::new(alloc);
    for arc in arcs {
        let is_inner = levels[arc.to as usize] == levels[arc.from as usize];
        put_if(&mut inner, is_inner, *arc)?;
    }
    Ok(inner)
}
