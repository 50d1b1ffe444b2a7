/// An edge of the flow graph. Points are held by their numbers; `site` is the point of the call.
///
/// A step goes from a statement to one that may follow it. A call goes from its site to the entry of a procedure that
/// it names, and each such call has a return of the same site, from that procedure's end to the point after the call.
/// No edge goes from a call straight to the point after it.
#[derive(Debug, Clone, Copy, PartialEq, Eq)]
pub enum Edge {
    /// From a statement to one that may follow it in its procedure.
    Step { from: u32, to: u32 },
    /// From the call at `site` to its callee's entry.
    Call { site: u32, from: u32, to: u32 },
    /// From a callee's end to the point after the call at `site`.
    Ret { site: u32, from: u32, to: u32 },
}

/// The step from point 0 to itself: what a small vector's unused places hold.
impl Default for Edge {
    ghost use Rattle.std.specs.Prelude.{◌≡◌};
    ghost use Rattle.flow_graph.specs.declared.edge.Edge.TheVariants.{Step};

    ghost is_default = { λ edge. edge ≡ Step 0 0 };

    fn default() -> Self {
        Edge::Step { from: 0, to: 0 }
    }
}
