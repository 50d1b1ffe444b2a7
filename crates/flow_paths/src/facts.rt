// What stands around a remark, as it is read.

ghost use Rattle.std.specs.Prelude.{◌≡◌};
ghost use Rattle.flow_paths.specs.code.Arounds.{kept_of, nothing, read_of};

use crate::around::Around;
use flow_graph::Edge;

/// What stands around a remark, as it is read.
#[derive(Clone, Copy)]
pub(crate) struct Facts<'a> {
    /// The points of the statements that are met first, or were met last.
    pub(crate) met: &'a [u32],
    /// The variables that hold the value.
    pub(crate) holders: &'a [u32],
    /// Whether some way ends without a write.
    pub(crate) may_end: bool,
    /// The nearest point before it that is reached.
    pub(crate) last: Option<u32>,
    /// The edges out of that point.
    pub(crate) edges: &'a [Edge],
}

/// Nothing stands around.
pub(crate) fn nothing<'a>() -> Facts<'a>
    ensures { read_of result ≡ nothing }
{
    Facts {
        met: &[],
        holders: &[],
        may_end: false,
        last: None,
        edges: &[],
    }
}

/// What stands around a remark.
pub(crate) fn facts_of<'a>(around: &'a Around) -> Facts<'a>
    ensures { read_of result ≡ kept_of around.now }
{
    Facts {
        met: around.met.as_slice(),
        holders: around.holders.as_slice(),
        may_end: around.may_end,
        last: around.last,
        edges: around.edges.as_slice(),
    }
}
