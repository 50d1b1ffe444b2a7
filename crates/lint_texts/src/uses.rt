// Where variables may be used before they are set.

ghost use Rattle.std.specs.Prelude.{◌≡◌, ◌∷◌, ◌++◌, ◌<◌, ℕ, List, [], IfOk, OnOk, if◌then◌else◌, length, nat_eq, slice_index};
ghost use Rattle.flow_graph.specs.Points.{point_count};
ghost use Rattle.flow_lints.specs.Lints.{IsLinted};
ghost use Rattle.lint_texts.specs.LintTexts.{is_use_of, unset_by, unset_of, use_told, uses_told};
ghost use Rattle.lint_texts.specs.code.Uses.{Follow, IsNext, TellUses};

use crate::OutOfMemory;
use crate::telling::Telling;
use flow_graph::Graph;
use flow_lints::{Lint, Linted, PlacedLint};
use flow_reports::Remark;
use std::alloc::Global;

/// A point at which a variable may be used before it is set, and the number of the next one of the same variable, from 1; 0 where there is none.
#[derive(Clone, Copy)]
pub struct Use {
    pub point: u32,
    pub next: usize,
}

/// The points at which variables may be used before they are set, as far as that is told, each variable's in their order.
#[derive(Drop)]
pub struct Uses {
    // The number of the first of each variable, from 1; 0 where there is none.
    heads: Vec<usize>,
    uses: Vec<Use>,
}

// The variable that may be used before it is set, where a lint says so.
fn unset_in(remark: Remark) -> Option<u32>
    ensures { result ≡ unset_by remark }
{
    match remark {
        Remark::NeverReached => None,
        Remark::Unset { variable } => Some(variable),
        Remark::Computed { .. } => None,
        Remark::VeryBusy { .. } => None,
        Remark::Dead { .. } => None,
    }
}

/// The variable that may be used before it is set, where a lint says so.
pub fn unset_variable(lint: Lint) -> Option<u32>
    ensures { result ≡ unset_of lint }
{
    match lint {
        Lint::NeverCalled { .. } => None,
        Lint::Told { remark } => unset_in(remark),
    }
}

// Makes room for the number of a variable.
fn reach(heads: &mut Vec<usize>, variable: u32) -> Result<(), OutOfMemory>
    ensures long { OnOk result (variable < length heads.new.items) }
    ensures same { OnOk result ((v : ℕ) → slice_index heads.new.items v ≡ slice_index heads.old.items v) }
{
    if heads.len() <= variable as usize {
        heads.resize(variable as usize + 1, 0)?;
    }
    Ok(())
}

impl Uses {
    // No use.
    fn none(alloc: Global) -> Uses
        ensures { TellUses result (λ _. []) }
    {
        Uses {
            heads: Vec::new(alloc),
            uses: Vec::new(alloc),
        }
    }

    // The number of the first use of a variable; 0 where there is none.
    fn head(&self, variable: u32) -> usize
        ensures { result ≡ slice_index self.now.heads.items variable }
    {
        match self.heads.get(variable as usize) {
            Some(head) => *head,
            None => 0,
        }
    }

    // Puts a use before those of the same variable.
    fn put_use(&mut self, variable: u32, point: u32) -> Result<(), OutOfMemory>
        ensures { (told : ℕ → List ℕ) → TellUses self.old told
            → OnOk result (TellUses self.new (λ v. (if nat_eq variable v then point ∷ [] else []) ++ told v)) }
    {
        let next = self.head(variable);
        reach(&mut self.heads, variable)?;
        self.uses.push(Use { point, next })?;
        self.heads[variable as usize] = self.uses.len();
        Ok(())
    }

    // Puts a lint before those behind it, where it is such a use.
    fn put_told(&mut self, placed: PlacedLint) -> Result<(), OutOfMemory>
        ensures { (told : ℕ → List ℕ) → TellUses self.old told
            → OnOk result (TellUses self.new (λ v. (if is_use_of v placed.lint then placed.point ∷ [] else []) ++ told v)) }
    {
        match unset_variable(placed.lint) {
            Some(variable) => self.put_use(variable, placed.point),
            None => Ok(()),
        }
    }

    // Puts a lint before those behind it, where it is told and is such a use.
    fn put_lint(
        &mut self,
        telling: Telling,
        graph: &Graph<'_>,
        placed: PlacedLint,
    ) -> Result<(), OutOfMemory>
        requires { placed.point < point_count graph.now }
        ensures { (told : ℕ → List ℕ) → TellUses self.old told
            → OnOk result (TellUses self.new (λ v. use_told telling graph.now v placed ++ told v)) }
    {
        if telling.tells(graph, placed) {
            self.put_told(placed)
        } else {
            Ok(())
        }
    }

    /// Those of a program's lints that are told.
    ///
    /// The condition: the lints are the program's. Fails only where memory runs out.
    pub(crate) fn of(
        alloc: Global,
        telling: Telling,
        graph: &Graph<'_>,
        linted: &Linted,
    ) -> Result<Uses, OutOfMemory>
        requires { IsLinted graph.now linted.now }
        ensures { IfOk result (λ uses. TellUses uses (uses_told telling graph.now linted.now)) }
    {
        let lints = linted.lints.as_slice();
        let mut uses = Uses::none(alloc);
        let mut at = lints.len();
        while at > 0 {
            at -= 1;
            uses.put_lint(telling, graph, lints[at])?;
        }
        Ok(uses)
    }

    /// The use of a number, from 1. None where it is 0.
    pub(crate) fn numbered(&self, number: usize) -> Option<Use>
        ensures next { (points : List ℕ) → Follow self.now.uses.items number points → IsNext self.now.uses.items number points result }
    {
        if number == 0 {
            return None;
        }
        match self.uses.get(number - 1) {
            Some(one) => Some(*one),
            None => None,
        }
    }

    /// The first use of a variable.
    pub(crate) fn first(&self, variable: u32) -> Option<Use>
        ensures { (told : ℕ → List ℕ) → TellUses self.now told
            → IsNext self.now.uses.items (slice_index self.now.heads.items variable) (told variable) result }
    {
        self.numbered(self.head(variable))
    }
}
