/// How a point is found to be reached from its procedure's entry.
#[derive(Clone, Copy)]
pub enum Hop {
    /// It is the entry.
    Begins,
    /// By a step from the point of a way before it.
    Steps { before: u32 },
    /// By a call at the point of a way before it, of a procedure whose exit is the point of another.
    Passes { before: u32, exit: u32 },
}

/// A point that is reached from its procedure's entry, and how. A list of them is a path to each: what it names stands before it.
#[derive(Clone, Copy)]
pub struct Way {
    pub point: u32,
    pub hop: Hop,
}

/// How a procedure is found to be entered.
#[derive(Clone, Copy)]
pub enum Hang {
    /// The problem begins with it.
    Root,
    /// By a call in the procedure of a branch before it, at the point of a way.
    Call { caller: u32, way: u32 },
}

/// A procedure that is entered, and how. A list of them is a tree of calls.
#[derive(Clone, Copy)]
pub struct Branch {
    pub procedure: u32,
    pub hang: Hang,
}
