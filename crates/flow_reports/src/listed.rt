// The remarks on a program as data.

ghost use Rattle.std.specs.Prelude.{◌≡◌, ℕ, ◌+◌, ◌*◌, ◌-◌, ◌<◌, ◌≤◌, ◌∷◌, ◌++◌, [], Some, IfOk, OnOk, length, map, true, if◌then◌else◌};
ghost use Rattle.std.specs.List.{filter, range_with_len};
ghost use Rattle.bit_rows.specs.Words.{has_bit};
ghost use Rattle.flow_graph.specs.Points.{kind_at, point_count};
ghost use Rattle.flow_graph.specs.Universes.{bits as bits_of};
ghost use Rattle.flow_graph.specs.declared.analysis.Analysis.TheVariants.{Busy};
ghost use Rattle.flow_reports.specs.Listed.{AreRemarks, placed_at, remarks_of};
ghost use Rattle.flow_reports.specs.Reports.{busy_at, computed_at, dead_at, remarks_at, remarks_when_reached, unset_at};
ghost use Rattle.report_answers.specs.Statements.{is_test as is_test_of};
ghost use Rattle.flow_reports.specs.code.Findings.{AreChosenFindings, AreFindings, knowledge_of};
ghost use Rattle.flow_reports.specs.declared.remark.Remark.TheVariants.{Computed, Dead, Unset, VeryBusy};

use crate::OutOfMemory;
use crate::findings::Findings;
use crate::remark::Remark;
use flow_graph::{Analysis, Graph};
use report_answers::{ReportAnswers, VariablesRead, assigned_variable, variables_read};
use std::alloc::Global;
use tac_program::StmtKind;

/// A remark, and the point of the statement on which it is.
#[derive(Debug, Clone, Copy, PartialEq, Eq)]
pub struct PlacedRemark {
    pub point: u32,
    pub remark: Remark,
}

// Puts a remark last, where it is to be made.
fn put_if(
    remarks: &mut Vec<PlacedRemark>,
    is_made: bool,
    point: u32,
    remark: Remark,
) -> Result<(), OutOfMemory>
    ensures { OnOk result (remarks.new.items ≡ remarks.old.items ++ placed_at point (if is_made then remark ∷ [] else [])) }
{
    if is_made {
        remarks.push(PlacedRemark { point, remark })?;
    }
    Ok(())
}

// Whether a word has a one at a place.
fn is_one(word: u64, place: u32) -> bool
    requires { place < 64 }
    ensures { result ≡ has_bit word place }
{
    (word >> place) & 1 == 1
}

impl Findings<'_> {
    // Puts which variables that the statement reads may not be set.
    fn put_unset(
        &self,
        remarks: &mut Vec<PlacedRemark>,
        point: u32,
        kind: &StmtKind,
    ) -> Result<(), OutOfMemory>
        requires found { AreChosenFindings self.now }
        requires point { point < point_count self.now.graph.now }
        requires kind { kind_at self.now.graph.now point ≡ Some kind.now }
        ensures { OnOk result (remarks.new.items
            ≡ remarks.old.items ++ placed_at point (map (λ v. Unset v) (unset_at self.now.graph.now (knowledge_of self.now) point))) }
    {
        let reads = self.answers.places(point).reads;
        match variables_read(kind) {
            VariablesRead::None => Ok(()),
            VariablesRead::One(variable) => {
                let unset = self.has(reads, Analysis::Reach, point, variable);
                put_if(remarks, unset, point, Remark::Unset { variable })
            }
            VariablesRead::Two(left, right) => {
                let unset = self.has(reads, Analysis::Reach, point, left);
                put_if(remarks, unset, point, Remark::Unset { variable: left })?;
                let unset = self.has(reads + 1, Analysis::Reach, point, right);
                put_if(remarks, unset, point, Remark::Unset { variable: right })
            }
        }
    }

    // Puts that the expression that the statement evaluates is computed already, where that is so.
    fn put_computed(
        &self,
        remarks: &mut Vec<PlacedRemark>,
        point: u32,
        kind: &StmtKind,
    ) -> Result<(), OutOfMemory>
        requires found { AreChosenFindings self.now }
        requires point { point < point_count self.now.graph.now }
        requires kind { kind_at self.now.graph.now point ≡ Some kind.now }
        ensures { OnOk result (remarks.new.items
            ≡ remarks.old.items ++ placed_at point (map (λ e. Computed e) (computed_at self.now.graph.now (knowledge_of self.now) point))) }
    {
        let _ = kind;
        let number = self.answers.places(point).evaluated;
        match self.graph.evaluated(point) {
            None => Ok(()),
            Some(bit) => {
                let computed = self.has(number, Analysis::Avail, point, bit);
                put_if(
                    remarks,
                    computed,
                    point,
                    Remark::Computed { expression: bit },
                )
            }
        }
    }

    // Puts which expressions of a word are very busy: those of its ones that stand for the expressions from `first` on and before `end`.
    fn put_busy_word(
        &self,
        remarks: &mut Vec<PlacedRemark>,
        point: u32,
        ones: u64,
        first: u32,
        end: u32,
    ) -> Result<(), OutOfMemory>
        requires word { (k : ℕ) → k < 64 → has_bit ones k ≡ (knowledge_of self.now).busy.contains point (first + k) }
        requires ordered { first ≤ end }
        requires width { end ≤ first + 64 }
        ensures { OnOk result (remarks.new.items ≡ remarks.old.items
            ++ placed_at point (map (λ e. VeryBusy e) (filter ((knowledge_of self.now).busy.contains point) (range_with_len first (end - first))))) }
    {
        for place in 0..end - first {
            let is_busy = is_one(ones, place);
            let expression = first + place;
            put_if(remarks, is_busy, point, Remark::VeryBusy { expression })?;
        }
        Ok(())
    }

    // Puts which expressions are very busy at a test, word by word of those that have a bit.
    fn put_busy_words(
        &self,
        remarks: &mut Vec<PlacedRemark>,
        point: u32,
        kind: &StmtKind,
    ) -> Result<(), OutOfMemory>
        requires found { AreChosenFindings self.now }
        requires point { point < point_count self.now.graph.now }
        requires kind { kind_at self.now.graph.now point ≡ Some kind.now }
        requires test { is_test_of kind.now ≡ true }
        ensures { OnOk result (remarks.new.items ≡ remarks.old.items
            ++ placed_at point (map (λ e. VeryBusy e)
            (filter ((knowledge_of self.now).busy.contains point) (range_with_len 0 (bits_of self.now.graph.now Busy))))) }
    {
        let _ = kind;
        let bits = self.graph.bits(Analysis::Busy);
        let mut next = self.answers.first_busy(self.answers.places(point).test);
        while let Some(busy) = self.answers.busy_word(next) {
            let (first, end) = (64 * busy.word, bits.min(64 * busy.word + 64));
            self.put_busy_word(remarks, point, busy.mask, first, end)?;
            next = busy.next;
        }
        Ok(())
    }

    // Puts which expressions are very busy at a test that is not doubtful.
    fn put_busy(
        &self,
        remarks: &mut Vec<PlacedRemark>,
        point: u32,
        kind: &StmtKind,
    ) -> Result<(), OutOfMemory>
        requires found { AreChosenFindings self.now }
        requires point { point < point_count self.now.graph.now }
        requires kind { kind_at self.now.graph.now point ≡ Some kind.now }
        ensures { OnOk result (remarks.new.items
            ≡ remarks.old.items ++ placed_at point (map (λ e. VeryBusy e) (busy_at self.now.graph.now (knowledge_of self.now) point))) }
    {
        if !self.tells_busy(point, kind) {
            return Ok(());
        }
        self.put_busy_words(remarks, point, kind)
    }

    // Puts that an assignment is dead, where that is so.
    fn put_dead(
        &self,
        remarks: &mut Vec<PlacedRemark>,
        point: u32,
        kind: &StmtKind,
    ) -> Result<(), OutOfMemory>
        requires found { AreChosenFindings self.now }
        requires point { point < point_count self.now.graph.now }
        requires kind { kind_at self.now.graph.now point ≡ Some kind.now }
        ensures { OnOk result (remarks.new.items
            ≡ remarks.old.items ++ placed_at point (map (λ v. Dead v) (dead_at self.now.graph.now (knowledge_of self.now) point))) }
    {
        match assigned_variable(kind) {
            None => Ok(()),
            Some(variable) => {
                let dead = self.finds_dead(point, kind);
                put_if(remarks, dead, point, Remark::Dead { variable })
            }
        }
    }

    // Puts all remarks on a statement that is reached.
    fn put_when_reached(
        &self,
        remarks: &mut Vec<PlacedRemark>,
        point: u32,
        kind: &StmtKind,
    ) -> Result<(), OutOfMemory>
        requires found { AreChosenFindings self.now }
        requires point { point < point_count self.now.graph.now }
        requires kind { kind_at self.now.graph.now point ≡ Some kind.now }
        ensures { OnOk result (remarks.new.items
            ≡ remarks.old.items ++ placed_at point (remarks_when_reached self.now.graph.now (knowledge_of self.now) point)) }
    {
        self.put_unset(remarks, point, kind)?;
        self.put_computed(remarks, point, kind)?;
        self.put_busy(remarks, point, kind)?;
        self.put_dead(remarks, point, kind)
    }

    // Puts the remarks of a point: none at a procedure's end, and of a statement that is never reached that alone.
    fn put_remarks(&self, remarks: &mut Vec<PlacedRemark>, point: u32) -> Result<(), OutOfMemory>
        requires found { AreChosenFindings self.now }
        requires point { point < point_count self.now.graph.now }
        ensures { OnOk result
            (remarks.new.items ≡ remarks.old.items ++ placed_at point (remarks_at self.now.graph.now (knowledge_of self.now) point)) }
    {
        let Some(stmt) = self.graph.stmt(point) else {
            return Ok(());
        };
        if self.reaches(point) {
            return self.put_when_reached(remarks, point, &stmt.kind);
        }
        put_if(remarks, true, point, Remark::NeverReached)
    }

    /// All remarks, in the order of the report's lines. Fails only where memory runs out.
    ///
    /// The condition: what was found is of one program.
    pub fn remarks(&self, alloc: Global) -> Result<Vec<PlacedRemark>, OutOfMemory>
        requires { AreFindings self.now }
        ensures { IfOk result (λ remarks. remarks.items ≡ remarks_of self.now.graph.now (knowledge_of self.now)) }
    {
        let mut remarks = Vec::new(alloc);
        for point in 0..self.graph.points() {
            self.put_remarks(&mut remarks, point)?;
        }
        Ok(remarks)
    }
}

/// The remarks on a program, in the order of its report's lines, of what is found on the calling thread. Fails as [`ReportAnswers`] do.
pub fn remarks_here(alloc: Global, graph: &Graph<'_>) -> Result<Vec<PlacedRemark>, OutOfMemory>
    ensures { IfOk result (λ remarks. AreRemarks graph.now remarks.items) }
{
    let answers = ReportAnswers::answered_here(alloc, graph)?;
    let found = Findings::of(alloc, graph, &answers)?;
    found.remarks(alloc)
}
