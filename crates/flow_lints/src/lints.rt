// The lints of a program.

ghost use Rattle.std.specs.Prelude.{◌≡◌, ◌&&◌, ◌-◌, ◌<◌, ◌≤◌, ◌∷◌, ◌++◌, [], Some, IfOk, OnOk, drop, length, map, nat_eq, not, if◌then◌else◌};
ghost use Rattle.flow_graph.specs.Points.{kind_at, place_of, point_count};
ghost use Rattle.flow_lints.specs.Lints.{IsFirstOf, IsLinted, by_executions, dead_variables_at, is_endless, is_entered, is_kept as is_kept_remark};
ghost use Rattle.flow_lints.specs.Lints.{is_left_out, is_reached, left_out_of, lints_at, lints_of, lints_placed_at, uncalled_at, unreached_at};
ghost use Rattle.flow_lints.specs.code.Lints.{AreLintFindings, all_told, behind, front, is_unread, lint_knowledge_of, told};
ghost use Rattle.flow_lints.specs.declared.lint.Lint.TheVariants.{NeverCalled, Told};
ghost use Rattle.flow_reports.specs.Listed.{placed_at, remarks_of};
ghost use Rattle.flow_reports.specs.Reports.{dead_at, remarks_at};
ghost use Rattle.report_answers.specs.Statements.{assigned};
ghost use Rattle.report_answers.specs.code.Reported.{TellReport};
ghost use Rattle.text_pieces.specs.code.Lists.{some_stand};
ghost use Rattle.flow_reports.specs.declared.remark.Remark.TheVariants.{Dead};

use crate::found::LintFindings;
use crate::lint::{Lint, Linted, PlacedLint};
use crate::{OutOfMemory, doubt};
use flow_graph::{Graph, target};
use flow_reports::{Findings, PlacedRemark, Remark};
use report_answers::ReportAnswers;
use std::alloc::Global;
use tac_program::StmtKind;

// Puts a lint last, where it is told.
fn put_if(
    lints: &mut Vec<PlacedLint>,
    is_told: bool,
    point: u32,
    lint: Lint,
) -> Result<(), OutOfMemory>
    ensures { OnOk result (lints.new.items ≡ lints.old.items ++ lints_placed_at point (if is_told then lint ∷ [] else [])) }
{
    if is_told {
        lints.push(PlacedLint { point, lint })?;
    }
    Ok(())
}

// Whether a remark is told as the report makes it.
fn is_kept(remark: Remark) -> bool
    ensures { result ≡ is_kept_remark remark }
{
    match remark {
        Remark::NeverReached => false,
        Remark::Unset { .. } => true,
        Remark::Computed { .. } => true,
        Remark::VeryBusy { .. } => true,
        Remark::Dead { .. } => false,
    }
}

// Puts a remark last as a lint, where it is kept.
fn put_told(lints: &mut Vec<PlacedLint>, placed: PlacedRemark) -> Result<(), OutOfMemory>
    ensures { OnOk result (lints.new.items ≡ lints.old.items ++ told placed) }
{
    if is_kept(placed.remark) {
        lints.push(PlacedLint {
            point: placed.point,
            lint: Lint::Told {
                remark: placed.remark,
            },
        })?;
    }
    Ok(())
}

// Puts those remarks of a point last that are kept, where the point's stand from a place on, and tells the place behind them.
fn put_kept(
    lints: &mut Vec<PlacedLint>,
    remarks: &[PlacedRemark],
    from: usize,
    point: u32,
) -> Result<usize, OutOfMemory>
    requires { from ≤ length remarks.now }
    ensures within { IfOk result (λ next. next ≤ length remarks.now) }
    ensures next { IfOk result (λ next. drop next remarks.now ≡ behind point (drop from remarks.now)) }
    ensures put { OnOk result (lints.new.items ≡ lints.old.items ++ all_told (front point (drop from remarks.now))) }
{
    for at in from..remarks.len() {
        let placed = remarks[at];
        if placed.point != point {
            return Ok(at);
        }
        put_told(lints, placed)?;
    }
    Ok(remarks.len())
}

impl LintFindings<'_> {
    // Whether a point is the first of a procedure that no valid path enters.
    fn begins_uncalled(&self, point: u32) -> bool
        requires found { AreLintFindings self.now }
        requires point { point < point_count self.now.undoubted.graph.now }
        ensures { result ≡ (nat_eq (place_of self.now.undoubted.graph.now point).place 0 && not (is_reached (lint_knowledge_of self.now) point)) }
    {
        self.undoubted.graph.place(point).place == 0 && !self.undoubted.is_reached(point)
    }

    // Puts that the procedure which begins at the point is never called, where that is so.
    fn put_uncalled(&self, lints: &mut Vec<PlacedLint>, point: u32) -> Result<(), OutOfMemory>
        requires found { AreLintFindings self.now }
        requires point { point < point_count self.now.undoubted.graph.now }
        ensures { OnOk result (lints.new.items ≡ lints.old.items
            ++ lints_placed_at point (map (λ p. NeverCalled p) (uncalled_at self.now.undoubted.graph.now (lint_knowledge_of self.now) point))) }
    {
        let procedure = self.undoubted.graph.place(point).procedure;
        let uncalled = self.begins_uncalled(point);
        put_if(lints, uncalled, point, Lint::NeverCalled { procedure })
    }

    // Whether a statement at the point is the first of some that are never reached.
    fn is_first_unreached(&self, point: u32) -> bool
        requires found { AreLintFindings self.now }
        requires point { point < point_count self.now.undoubted.graph.now }
        ensures { result ≡ ((is_entered self.now.undoubted.graph.now (lint_knowledge_of self.now) point
            && not (is_reached (lint_knowledge_of self.now) point)) && is_reached (lint_knowledge_of self.now) (point - 1)) }
    {
        let procedure = self.undoubted.graph.place(point).procedure;
        let entry = self.undoubted.graph.point(procedure, 0);
        let before = point.saturating_sub(1);
        self.undoubted.is_reached(entry)
            && !self.undoubted.is_reached(point)
            && self.undoubted.is_reached(before)
    }

    // Puts that a statement is never reached, where it is the first of some.
    fn put_unreached(&self, lints: &mut Vec<PlacedLint>, point: u32) -> Result<(), OutOfMemory>
        requires found { AreLintFindings self.now }
        requires point { point < point_count self.now.undoubted.graph.now }
        ensures { OnOk result (lints.new.items ≡ lints.old.items
            ++ lints_placed_at point (map (λ r. Told r) (unreached_at self.now.undoubted.graph.now (lint_knowledge_of self.now) point))) }
    {
        let Some(_) = self.undoubted.graph.stmt(point) else {
            return Ok(());
        };
        let first = self.is_first_unreached(point);
        put_if(
            lints,
            first,
            point,
            Lint::Told {
                remark: Remark::NeverReached,
            },
        )
    }

    // Whether the statement at a point assigns a variable that is not live behind it, at a point that is not doubtful on executions.
    fn sets_dead(&self, point: u32, kind: &StmtKind) -> bool
        requires found { AreLintFindings self.now }
        requires point { point < point_count self.now.undoubted.graph.now }
        requires kind { kind_at self.now.undoubted.graph.now point ≡ Some kind.now }
        ensures { result ≡ some_stand (dead_at self.now.undoubted.graph.now (by_executions (lint_knowledge_of self.now)) point) }
    {
        self.undoubted.sets_dead(point, kind) && !self.on_executions[point as usize + 1]
    }

    // Puts that an assignment is dead, where that is so.
    fn put_assigned(
        &self,
        lints: &mut Vec<PlacedLint>,
        point: u32,
        kind: &StmtKind,
    ) -> Result<(), OutOfMemory>
        requires found { AreLintFindings self.now }
        requires point { point < point_count self.now.undoubted.graph.now }
        requires kind { kind_at self.now.undoubted.graph.now point ≡ Some kind.now }
        ensures { OnOk result (lints.new.items ≡ lints.old.items ++ lints_placed_at point
            (map (λ r. Told r) (map (λ v. Dead v) (dead_at self.now.undoubted.graph.now (by_executions (lint_knowledge_of self.now)) point)))) }
    {
        let Some(variable) = target(kind) else {
            return Ok(());
        };
        let dead = self.sets_dead(point, kind);
        put_if(
            lints,
            dead,
            point,
            Lint::Told {
                remark: Remark::Dead { variable },
            },
        )
    }

    // Puts that an assignment is dead, where it is reached and that is so.
    fn put_dead(&self, lints: &mut Vec<PlacedLint>, point: u32) -> Result<(), OutOfMemory>
        requires found { AreLintFindings self.now }
        requires point { point < point_count self.now.undoubted.graph.now }
        ensures { OnOk result (lints.new.items ≡ lints.old.items ++ lints_placed_at point
            (map (λ r. Told r) (map (λ v. Dead v) (dead_variables_at self.now.undoubted.graph.now (lint_knowledge_of self.now) point)))) }
    {
        let Some(stmt) = self.undoubted.graph.stmt(point) else {
            return Ok(());
        };
        if self.undoubted.is_reached(point) {
            return self.put_assigned(lints, point, &stmt.kind);
        }
        Ok(())
    }

    // Puts all that is told at a point, of whose remarks those that are kept stand from a place on, and tells the place behind these.
    fn put_lints(
        &self,
        lints: &mut Vec<PlacedLint>,
        remarks: &[PlacedRemark],
        from: usize,
        point: u32,
    ) -> Result<usize, OutOfMemory>
        requires found { AreLintFindings self.now }
        requires point { point < point_count self.now.undoubted.graph.now }
        requires from { from ≤ length remarks.now }
        requires front { front point (drop from remarks.now)
            ≡ placed_at point (remarks_at self.now.undoubted.graph.now (lint_knowledge_of self.now).report point) }
        ensures within { IfOk result (λ next. next ≤ length remarks.now) }
        ensures next { IfOk result (λ next. drop next remarks.now ≡ behind point (drop from remarks.now)) }
        ensures put { OnOk result (lints.new.items
            ≡ lints.old.items ++ lints_placed_at point (lints_at self.now.undoubted.graph.now (lint_knowledge_of self.now) point)) }
    {
        self.put_uncalled(lints, point)?;
        self.put_unreached(lints, point)?;
        let next = put_kept(lints, remarks, from, point)?;
        self.put_dead(lints, point)?;
        Ok(next)
    }

    /// All lints, in the order of points.
    ///
    /// The conditions: what was found is of one program, and the remarks are those of its report. Fails only where memory runs out.
    pub fn lints(
        &self,
        alloc: Global,
        remarks: &[PlacedRemark],
    ) -> Result<Vec<PlacedLint>, OutOfMemory>
        requires found { AreLintFindings self.now }
        requires remarks { remarks.now ≡ remarks_of self.now.undoubted.graph.now (lint_knowledge_of self.now).report }
        ensures { IfOk result (λ lints. lints.items ≡ lints_of self.now.undoubted.graph.now (lint_knowledge_of self.now)) }
    {
        let mut lints = Vec::new(alloc);
        let mut next = 0;
        for point in 0..self.undoubted.graph.points() {
            next = self.put_lints(&mut lints, remarks, next, point)?;
        }
        Ok(lints)
    }

    // Whether the statement at a point assigns a variable that is not live behind it, at a point that is doubtful on executions.
    fn sets_unread(&self, point: u32, kind: &StmtKind) -> bool
        requires found { AreLintFindings self.now }
        requires point { point < point_count self.now.undoubted.graph.now }
        requires kind { kind_at self.now.undoubted.graph.now point ≡ Some kind.now }
        ensures { result ≡ is_unread (lint_knowledge_of self.now) point (assigned kind.now) }
    {
        self.undoubted.sets_dead(point, kind) && self.on_executions[point as usize + 1]
    }

    // Whether an assignment that is reached is left out for doubt on executions alone.
    fn leaves_out(&self, point: u32) -> bool
        requires found { AreLintFindings self.now }
        requires point { point < point_count self.now.undoubted.graph.now }
        ensures { result ≡ is_left_out self.now.undoubted.graph.now (lint_knowledge_of self.now) point }
    {
        match self.undoubted.graph.stmt(point) {
            Some(stmt) => self.undoubted.is_reached(point) && self.sets_unread(point, &stmt.kind),
            None => false,
        }
    }

    /// How many dead assignments are left out for doubt on executions: they are reached, and the variable is not live behind them.
    ///
    /// The condition: what was found is of one program.
    pub fn left_out(&self) -> u32
        requires { AreLintFindings self.now }
        ensures { result ≡ left_out_of self.now.undoubted.graph.now (lint_knowledge_of self.now) }
    {
        let mut count = 0;
        for point in 0..self.undoubted.graph.points() {
            if self.leaves_out(point) {
                count += 1;
            }
        }
        count
    }

    /// The first point that is reached and from which no valid path leads to the end of `main`, if there is one.
    ///
    /// The condition: what was found is of one program.
    pub fn first_endless(&self) -> Option<u32>
        requires { AreLintFindings self.now }
        ensures { IsFirstOf (is_endless (lint_knowledge_of self.now)) (point_count self.now.undoubted.graph.now) result }
    {
        for point in 0..self.undoubted.graph.points() {
            if doubt::is_endless(&self.undoubted, point) {
                return Some(point);
            }
        }
        None
    }
}

/// What a linter tells of a program, of the answers to what its report asks. Fails only where memory runs out.
pub fn linted(
    alloc: Global,
    graph: &Graph<'_>,
    answers: &ReportAnswers,
) -> Result<Linted, OutOfMemory>
    requires { TellReport graph.now answers.now }
    ensures { IfOk result (IsLinted graph.now) }
{
    let found = Findings::of(alloc, graph, answers)?;
    let remarks = found.remarks(alloc)?;
    let found = LintFindings::of(alloc, found)?;
    let lints = found.lints(alloc, &remarks)?;
    Ok(Linted {
        lints,
        left_out: found.left_out(),
        endless: found.first_endless(),
    })
}

/// What a linter tells of a program, of answers that are found on the calling thread. Fails as [`ReportAnswers`] do.
pub fn linted_here(alloc: Global, graph: &Graph<'_>) -> Result<Linted, OutOfMemory>
    ensures { IfOk result (IsLinted graph.now) }
{
    let answers = ReportAnswers::answered_here(alloc, graph)?;
    linted(alloc, graph, &answers)
}
