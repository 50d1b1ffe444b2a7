/// What a path through a callee does with the bit.
#[derive(Debug, Clone, Copy, PartialEq, Eq)]
pub enum Effect {
    /// Nothing is said of the bit: the path is there.
    Reaches,
    /// The path has the bit in its value whether it was there before or not.
    Generates,
    /// No step of the path kills the bit: it is there behind the call where it was there before it.
    Preserves,
}

/// One hop of a witness, in the direction in which the analysis goes: where it goes backwards, `from` lies behind `to` in the program.
/// Points and procedures are held by their numbers; `site` is the point of the call.
#[derive(Debug, Clone, Copy, PartialEq, Eq)]
pub enum Hop {
    /// A step inside a procedure.
    Step {
        from: u32,
        to: u32,
    },
    /// A call whose callee is entered and not left again on the way: from the call to the callee's entry. Where the analysis goes
    /// backwards, a return whose call does not lie on the way: from the point after the call to the callee's end.
    Enter {
        site: u32,
        from: u32,
        to: u32,
    },
    /// A call that is passed as a whole: from the call to the point behind it, by some path through the callee that has the effect.
    Pass {
        site: u32,
        from: u32,
        callee: u32,
        to: u32,
        effect: Effect,
    },
}
