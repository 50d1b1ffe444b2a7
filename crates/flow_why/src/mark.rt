use crate::hop::Hop;

/// Why a point is marked.
#[derive(Debug, Clone, Copy, PartialEq, Eq)]
pub enum Reason {
    /// A search begins there.
    Beginning,
    /// By a hop from a point that was marked before it in the same list.
    Own(Hop),
    /// By a hop from a point to which paths lead.
    Base(Hop),
}

/// A marked point.
#[derive(Debug, Clone, Copy, PartialEq, Eq)]
pub struct Mark {
    /// The point.
    pub point: u32,
    /// Why it is marked.
    pub reason: Reason,
}
