// The path of a use.

ghost use Rattle.std.specs.Prelude.{◌≡◌, ◌<◌, IfOk};
ghost use Rattle.flow_graph.specs.Paths.{SomePathHas};
ghost use Rattle.flow_graph.specs.Points.{point_count};
ghost use Rattle.flow_graph.specs.Problems.{may_shape};
ghost use Rattle.flow_why.specs.Witnesses.{IsWitness};
ghost use Rattle.gen_kill.specs.Selections.{column_transfer};
ghost use Rattle.flow_paths.specs.code.UnsetPaths.{use_of};

use crate::OutOfMemory;
use flow_reports::UnsetUse;
use flow_why::Hop;
use flow_witnesses::Why;
use std::alloc::Global;

/// A use of a variable that may not be set there, and the hops of a witness of it.
#[derive(Drop)]
pub(crate) struct UnsetPath {
    pub(crate) point: u32,
    pub(crate) variable: u32,
    pub(crate) hops: Vec<Hop>,
}

/// The path of a use, by what is found of the variable's value at the beginning. Fails only where memory runs out.
pub(crate) fn path_of(
    alloc: Global,
    why: &Why<'_, '_, '_>,
    one: UnsetUse,
) -> Result<UnsetPath, OutOfMemory>
    requires point { one.point < point_count why.now.form.program }
    requires reaches { SomePathHas (may_shape why.now.form.program why.now.form.analysis) (column_transfer why.now.form why.now.column) one.point }
    ensures of { IfOk result (λ path. use_of path ≡ one) }
    ensures witness { IfOk result (λ path. IsWitness (may_shape why.now.form.program why.now.form.analysis)
        (column_transfer why.now.form why.now.column) path.point path.hops.items) }
{
    let UnsetUse { point, variable } = one;
    match why.witness(alloc, point)? {
        Some(hops) => Ok(UnsetPath {
            point,
            variable,
            hops,
        }),
        None => unreachable!(),
    }
}
