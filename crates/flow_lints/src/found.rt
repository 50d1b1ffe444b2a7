// What is found of a program before its lints are told.

ghost use Rattle.std.specs.Prelude.{◌≡◌, ℕ, false, get_or, length, IfOk};
ghost use Rattle.flow_graph.specs.Points.{point_count};
ghost use Rattle.flow_lints.specs.code.Lints.{AreLintFindings, TellDoubtOnExecutions, report_findings};
ghost use Rattle.flow_reports.specs.code.Findings.{AreFindings};

use crate::OutOfMemory;
use crate::doubt::doubt_on_executions;
use flow_reports::Findings;
use std::alloc::Global;
use std::mem::replace;

/// What was found of a program: what its report is made of, and for each point whether it is doubtful on executions.
#[derive(Drop)]
pub struct LintFindings<'a> {
    /// What was found, but that no point is doubtful.
    pub undoubted: Findings<'a>,
    /// Whether each point is doubtful.
    pub doubtful: Vec<bool>,
    /// Whether each point is doubtful on executions.
    pub on_executions: Vec<bool>,
}

// So many truth values that are false.
fn no_points(alloc: Global, count: u32) -> Result<Vec<bool>, OutOfMemory>
    ensures count { IfOk result (λ flags. length flags.items ≡ count) }
    ensures none { IfOk result (λ flags. (point : ℕ) → get_or flags.items point false ≡ false) }
{
    vec![in alloc; false; count as usize]
}

impl<'a> LintFindings<'a> {
    /// What is found beside what the report of a program is made of.
    ///
    /// The condition: what was found is of one program. Fails only where memory runs out.
    pub fn of(alloc: Global, found: Findings<'a>) -> Result<LintFindings<'a>, OutOfMemory>
        requires { AreFindings found }
        ensures report { IfOk result (λ lints. report_findings lints ≡ found.entry) }
        ensures found { IfOk result AreLintFindings }
        ensures doubtful { IfOk result (λ lints. TellDoubtOnExecutions lints.undoubted.graph.now lints.on_executions.items) }
    {
        let on_executions = doubt_on_executions(alloc, &found)?;
        let none = no_points(alloc, found.graph.points())?;
        let mut undoubted = found;
        let doubtful = replace(&mut undoubted.doubtful, none);
        Ok(LintFindings {
            undoubted,
            doubtful,
            on_executions,
        })
    }
}
