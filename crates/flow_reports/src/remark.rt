/// What is said of the statement at a point. Variables and expressions are held by number.
#[derive(Debug, Clone, Copy, PartialEq, Eq)]
pub enum Remark {
    /// No valid path leads there.
    NeverReached,
    /// It reads the variable, which may not be set there.
    Unset { variable: u32 },
    /// It evaluates the expression, which is available there.
    Computed { expression: u32 },
    /// It is a test at which the expression is very busy.
    VeryBusy { expression: u32 },
    /// It assigns the variable, which is not live behind it.
    Dead { variable: u32 },
}
