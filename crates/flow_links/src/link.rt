/// Where a call leads.
#[derive(Debug, Clone, Copy, PartialEq, Eq)]
pub struct CallLink {
    /// The exit of the procedure that is called.
    pub exit: u32,
    /// The point after the call.
    pub after: u32,
}

/// A call in a procedure.
#[derive(Debug, Clone, Copy, PartialEq, Eq)]
pub struct SiteLink {
    /// The point of the call.
    pub point: u32,
    /// The procedure that is called.
    pub callee: u32,
}
