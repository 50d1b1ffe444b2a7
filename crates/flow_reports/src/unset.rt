// The uses of variables that may not be set there, as data.

ghost use Rattle.std.specs.Prelude.{◌≡◌, ◌∷◌, ◌++◌, ◌+◌, ◌*◌, ◌-◌, ◌<◌, ◌≤◌, [], Some, length, IfOk, OnOk, if◌then◌else◌};
ghost use Rattle.flow_graph.specs.Points.{kind_at, point_count};
ghost use Rattle.flow_reports.specs.Reports.{unset_at};
ghost use Rattle.flow_reports.specs.Uses.{unset_uses, unset_uses_at, uses_of};
ghost use Rattle.flow_reports.specs.code.Findings.{AreChosenFindings, AreFindings, knowledge_of};

use crate::OutOfMemory;
use crate::findings::Findings;
use flow_graph::Analysis;
use report_answers::{VariablesRead, variables_read};
use std::alloc::Global;
use tac_program::StmtKind;

/// A use of a variable that may not be set there: the point of a statement, and a variable that it reads.
#[derive(Debug, Clone, Copy, PartialEq, Eq)]
pub struct UnsetUse {
    pub point: u32,
    pub variable: u32,
}

// Puts a use last, where the variable may not be set.
fn put_use_if(
    uses: &mut Vec<UnsetUse>,
    is_unset: bool,
    point: u32,
    variable: u32,
) -> Result<(), OutOfMemory>
    ensures put { OnOk result (uses.new.items ≡ uses.old.items ++ uses_of point (if is_unset then variable ∷ [] else [])) }
    ensures few { OnOk result (length uses.new.items ≤ length uses.old.items + 1) }
{
    if is_unset {
        uses.push(UnsetUse { point, variable })?;
    }
    Ok(())
}

impl Findings<'_> {
    // Puts which variables that the statement reads may not be set.
    fn put_uses(
        &self,
        uses: &mut Vec<UnsetUse>,
        point: u32,
        kind: &StmtKind,
    ) -> Result<(), OutOfMemory>
        requires found { AreChosenFindings self.now }
        requires point { point < point_count self.now.graph.now }
        requires kind { kind_at self.now.graph.now point ≡ Some kind.now }
        ensures put { OnOk result (uses.new.items ≡ uses.old.items ++ uses_of point (unset_at self.now.graph.now (knowledge_of self.now) point)) }
        ensures few { OnOk result (length uses.new.items ≤ length uses.old.items + 2) }
    {
        let reads = self.answers.places(point).reads;
        match variables_read(kind) {
            VariablesRead::None => Ok(()),
            VariablesRead::One(variable) => {
                let unset = self.has(reads, Analysis::Reach, point, variable);
                put_use_if(uses, unset, point, variable)
            }
            VariablesRead::Two(left, right) => {
                let unset = self.has(reads, Analysis::Reach, point, left);
                put_use_if(uses, unset, point, left)?;
                let unset = self.has(reads + 1, Analysis::Reach, point, right);
                put_use_if(uses, unset, point, right)
            }
        }
    }

    // Puts the uses at a point: none at a procedure's end, and none where no valid path leads.
    fn put_uses_at(&self, uses: &mut Vec<UnsetUse>, point: u32) -> Result<(), OutOfMemory>
        requires found { AreChosenFindings self.now }
        requires point { point < point_count self.now.graph.now }
        ensures put { OnOk result (uses.new.items ≡ uses.old.items ++ unset_uses_at self.now.graph.now (knowledge_of self.now) point) }
        ensures few { OnOk result (length uses.new.items ≤ length uses.old.items + 2) }
    {
        let Some(stmt) = self.graph.stmt(point) else {
            return Ok(());
        };
        if self.reaches(point) {
            return self.put_uses(uses, point, &stmt.kind);
        }
        Ok(())
    }

    /// The uses of variables that may not be set there, at the points from `first` on and before `end`, in the order of a report's lines.
    /// Fails only where memory runs out.
    ///
    /// The conditions: what was found is of one program, which has these points.
    pub fn unset_uses(
        &self,
        alloc: Global,
        first: u32,
        end: u32,
    ) -> Result<Vec<UnsetUse>, OutOfMemory>
        requires found { AreFindings self.now }
        requires ordered { first ≤ end }
        requires end { end ≤ point_count self.now.graph.now }
        ensures few { IfOk result (λ uses. length uses.items ≤ 2 * (end - first)) }
        ensures uses { IfOk result (λ uses. uses.items ≡ unset_uses self.now.graph.now (knowledge_of self.now) first (end - first)) }
    {
        let mut uses = Vec::new(alloc);
        for point in first..end {
            self.put_uses_at(&mut uses, point)?;
        }
        Ok(uses)
    }
}
