/// A list in which edges stand.
#[derive(Clone, Copy)]
pub(crate) enum ListKind {
    /// The steps from each point.
    Steps,
    /// The calls from each point.
    Calls,
    /// The calls whose callee is left at each point.
    Callers,
    /// The calls in each procedure.
    Sites,
}
