// Faults as far as they are found.

ghost use Rattle.std.specs.Prelude.{◌≡◌, ◌++◌, [], take, if◌then◌else◌, OnOk};
ghost use Rattle.tac_faults.specs.Listed.{most_found};
ghost use Rattle.tac_lines.specs.LineFaults.{at};

use tac_lines::{Fault, OutOfMemory, RefusalKind};

/// How many faults of a text are found: one more than a reader is told, so that it is known whether there are more.
pub const MOST_FOUND: usize = 21;

/// Puts a fault last where it is one, while fewer are found than are looked for.
pub fn tell(
    found: &mut Vec<Fault>,
    is_fault: bool,
    kind: RefusalKind,
    place: u32,
) -> Result<(), OutOfMemory>
    ensures { OnOk result (take most_found found.new.items ≡ take most_found (found.old.items ++ (if is_fault then at kind place else []))) }
{
    if is_fault && found.len() < MOST_FOUND {
        found.push(Fault { kind, place })?;
    }
    Ok(())
}
