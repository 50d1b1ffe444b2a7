// Why arrays make no program.

use crate::OutOfMemory;

/// Why arrays make no program.
#[derive(Clone, Copy, Debug, PartialEq, Eq)]
pub enum BuildFault {
    /// The statement of this number is none: its kind, operator, operands, target, label or callees are not there, or not of its form.
    BadStatement(u32),
    /// The label of this number stands behind its procedure's end, or before the label ahead of it.
    BadLabel(u32),
    /// The procedure of this number has a name that is none of the language, or that an earlier one has, or bytes that are not there.
    BadProcedureName(u32),
    /// The same of a variable.
    BadVariableName(u32),
    /// The same of a label.
    BadLabelName(u32),
    /// There are not as many names as procedures, or not as many statements or labels as the procedures have, or too few names of labels.
    BadCounts,
    /// No procedure is called `main`.
    NoMain,
    /// There are more procedures than the limits allow.
    TooManyProcedures,
    /// There are more statements, labels or variables than a text within the limits can have.
    TooLong,
    /// Memory was refused.
    OutOfMemory,
}

impl From<OutOfMemory> for BuildFault {
    ghost use Rattle.std.specs.Prelude.{◌≡◌};
    ghost use Rattle.flow_builder.specs.declared.fault.BuildFault.TheVariants as fault;

    ghost from_gives = { λ _ e. e ≡ fault.OutOfMemory };

    fn from(_no_memory: OutOfMemory) -> BuildFault {
        BuildFault::OutOfMemory
    }
}
