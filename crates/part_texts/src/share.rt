// Which part of a report, of how many.

ghost use Rattle.std.specs.Prelude.{◌≤◌};

/// A part of so many.
#[derive(Clone, Copy)]
pub struct Share {
    /// Which part it is, from 1 on.
    pub part: u32,
    /// Of how many, 4,096 at most.
    pub count: u32,
    pub ghost first: { 1 ≤ part },
    pub ghost last: { part ≤ count },
    pub ghost few: { count ≤ 4096 },
}
