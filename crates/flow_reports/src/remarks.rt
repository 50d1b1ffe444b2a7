// What is said of the statement at a point.

ghost use Rattle.std.specs.Prelude.{◌≡◌, ℕ, ◌+◌, ◌*◌, ◌-◌, ◌&&◌, ◌<◌, ◌≤◌, ◌∷◌, [], Some, flat_map, length, not, slice_get, true};
ghost use Rattle.std.specs.List.{range_with_len};
ghost use Rattle.bit_rows.specs.Words.{has_bit};
ghost use Rattle.flow_graph.specs.Points.{kind_at, point_count};
ghost use Rattle.flow_graph.specs.Universes.{bits as bits_of, evaluated_at};
ghost use Rattle.flow_graph.specs.declared.analysis.Analysis.TheVariants.{Busy, Reach};
ghost use Rattle.flow_reports.specs.code.Findings.{AreChosenFindings, AreFindings, IsRemarkIn, knowledge_of, remark_name, words_before, words_behind};
ghost use Rattle.flow_texts.specs.code.Members.{texts_where};
ghost use Rattle.text_pieces.specs.code.Lists.{some_stand};
ghost use Rattle.text_pieces.specs.Pieces.{CanWrite, Writes};
ghost use Rattle.flow_reports.specs.Reports.{busy_at, computed_at, dead_at, remarks_at};
ghost use Rattle.report_answers.specs.Statements.{assigned as assigned_by, is_test as is_test_of};
ghost use Rattle.flow_reports.specs.Reports.{remarks_when_reached, unset_at};
ghost use Rattle.report_answers.specs.code.Chosen.{wanted_query};
ghost use Rattle.flow_reports.specs.declared.remark.Remark.TheVariants.{Computed, Dead, Unset, VeryBusy};

use crate::findings::Findings;
use crate::remark::Remark;
use crate::remark_form::{ChosenForm, RemarkForm, WholeForm};
use flow_graph::Analysis;
use flow_texts::next_one;
use report_answers::{VariablesRead, assigned_variable, is_test, variables_read};
use tac_program::StmtKind;
use text_pieces::{Pieces, Sink};

// A word of a set: its ones stand for the numbers from the first on and before the end.
#[derive(Clone, Copy)]
struct WordOnes {
    ones: u64,
    first: u32,
    end: u32,
}

/// What a remark says before what it names.
pub fn words_before_name(remark: Remark) -> &'static [u8]
    ensures { result.now ≡ words_before remark }
{
    match remark {
        Remark::NeverReached => b"never reached",
        Remark::Unset { .. } => b"",
        Remark::Computed { .. } => b"",
        Remark::VeryBusy { .. } => b"",
        Remark::Dead { .. } => b"assignment to ",
    }
}

/// What a remark says behind what it names.
pub fn words_behind_name(remark: Remark) -> &'static [u8]
    ensures { result.now ≡ words_behind remark }
{
    match remark {
        Remark::NeverReached => b"",
        Remark::Unset { .. } => b" may be used before it is set",
        Remark::Computed { .. } => b" is already computed",
        Remark::VeryBusy { .. } => b" is very busy",
        Remark::Dead { .. } => b" is dead",
    }
}

impl Findings<'_> {
    /// What a remark names: a variable or an expression, or nothing where a statement is never reached.
    ///
    /// The conditions: what was found is of one program, which has what the remark names.
    pub fn name(&self, remark: Remark) -> &[u8]
        requires found { AreFindings self.now }
        requires remark { IsRemarkIn self.now.graph.now remark }
        ensures { result.now ≡ remark_name self.now.graph.now remark }
    {
        self.chosen_name(remark)
    }

    /// The same of findings that may be of chosen bits alone.
    pub fn chosen_name(&self, remark: Remark) -> &[u8]
        requires found { AreChosenFindings self.now }
        requires remark { IsRemarkIn self.now.graph.now remark }
        ensures { result.now ≡ remark_name self.now.graph.now remark }
    {
        match remark {
            Remark::NeverReached => b"",
            Remark::Unset { variable } => self.graph.program().variable(variable),
            Remark::Computed { expression } => self.expressions.text(expression),
            Remark::VeryBusy { expression } => self.expressions.text(expression),
            Remark::Dead { variable } => self.graph.program().variable(variable),
        }
    }

    /// Whether some valid path leads to a point.
    ///
    /// The conditions: what was found is of one program, which has the point.
    pub fn is_reached(&self, point: u32) -> bool
        requires found { AreFindings self.now }
        requires point { point < point_count self.now.graph.now }
        ensures { result ≡ (knowledge_of self.now).reach.has_path point }
    {
        self.reaches(point)
    }

    /// The same of findings that may be of chosen bits alone.
    pub(crate) fn reaches(&self, point: u32) -> bool
        requires found { AreChosenFindings self.now }
        requires point { point < point_count self.now.graph.now }
        ensures { result ≡ (knowledge_of self.now).reach.has_path point }
    {
        self.answers.has_path(Analysis::Reach, point)
    }

    // Whether a variable may not be set at a point, by the query of a number.
    fn may_be_unset(&self, number: u32, point: u32, variable: u32) -> bool
        requires found { AreChosenFindings self.now }
        requires queried { slice_get self.now.answers.now.replies.queries number ≡ Some (wanted_query self.now.answers.now.chosen Reach point variable) }
        ensures { result ≡ (knowledge_of self.now).reach.contains point variable }
    {
        self.has(number, Analysis::Reach, point, variable)
    }

    /// Whether the statement at a point reads a variable that may not be set there.
    ///
    /// The conditions: what was found is of one program, and the statement stands at that point.
    pub fn reads_unset(&self, point: u32, kind: &StmtKind) -> bool
        requires found { AreFindings self.now }
        requires point { point < point_count self.now.graph.now }
        requires kind { kind_at self.now.graph.now point ≡ Some kind.now }
        ensures { result ≡ some_stand (unset_at self.now.graph.now (knowledge_of self.now) point) }
    {
        self.finds_unset(point, kind)
    }

    // The same of findings that may be of chosen bits alone.
    fn finds_unset(&self, point: u32, kind: &StmtKind) -> bool
        requires found { AreChosenFindings self.now }
        requires point { point < point_count self.now.graph.now }
        requires kind { kind_at self.now.graph.now point ≡ Some kind.now }
        ensures { result ≡ some_stand (unset_at self.now.graph.now (knowledge_of self.now) point) }
    {
        let here = self.answers.places(point);
        match variables_read(kind) {
            VariablesRead::None => false,
            VariablesRead::One(variable) => self.may_be_unset(here.reads, point, variable),
            VariablesRead::Two(first, second) => {
                self.may_be_unset(here.reads, point, first)
                    || self.may_be_unset(here.reads + 1, point, second)
            }
        }
    }

    // Writes that a variable that the statement reads may not be set, where that is so, by the query of a number.
    fn write_unset_variable<F: ChosenForm, K: Sink>(
        &self,
        form: &F,
        out: &mut Pieces<'_, K>,
        number: u32,
        point: u32,
        variable: u32,
    )
        requires ready { CanWrite K.Sink out.old }
        requires fits { F.is_for form.now self.now }
        requires found { AreChosenFindings self.now }
        requires queried { slice_get self.now.answers.now.replies.queries number ≡ Some (wanted_query self.now.answers.now.chosen Reach point variable) }
        requires point { point < point_count self.now.graph.now }
        requires variable { variable < length self.now.graph.now.variable_names }
        ensures { Writes K.Sink out.old out.new
            (texts_where (λ v. F.text form.now self.now.graph.now point (Unset v)) ((knowledge_of self.now).reach.contains point) (variable ∷ [])) }
    {
        if !self.may_be_unset(number, point, variable) {
            return;
        }
        form.write_remark(out, self, point, Remark::Unset { variable });
    }

    // Writes which variables that the statement reads may not be set.
    fn write_unset<F: ChosenForm, K: Sink>(
        &self,
        form: &F,
        out: &mut Pieces<'_, K>,
        point: u32,
        kind: &StmtKind,
    )
        requires ready { CanWrite K.Sink out.old }
        requires fits { F.is_for form.now self.now }
        requires found { AreChosenFindings self.now }
        requires point { point < point_count self.now.graph.now }
        requires kind { kind_at self.now.graph.now point ≡ Some kind.now }
        ensures { Writes K.Sink out.old out.new
            (flat_map (λ v. F.text form.now self.now.graph.now point (Unset v)) (unset_at self.now.graph.now (knowledge_of self.now) point)) }
    {
        let reads = self.answers.places(point).reads;
        match variables_read(kind) {
            VariablesRead::None => {}
            VariablesRead::One(variable) => {
                self.write_unset_variable(form, out, reads, point, variable);
            }
            VariablesRead::Two(first, second) => {
                self.write_unset_variable(form, out, reads, point, first);
                self.write_unset_variable(form, out, reads + 1, point, second);
            }
        }
    }

    // Whether the expression that the statement at a point evaluates is available there.
    fn is_computed(&self, point: u32, kind: &StmtKind, bit: u32) -> bool
        requires found { AreChosenFindings self.now }
        requires point { point < point_count self.now.graph.now }
        requires kind { kind_at self.now.graph.now point ≡ Some kind.now }
        requires bit { evaluated_at self.now.graph.now point ≡ Some bit }
        ensures { result ≡ (knowledge_of self.now).avail.contains point bit }
    {
        let _ = kind;
        let number = self.answers.places(point).evaluated;
        self.has(number, Analysis::Avail, point, bit)
    }

    // Writes that the expression that the statement evaluates is computed already, where that is so.
    fn write_computed<F: ChosenForm, K: Sink>(
        &self,
        form: &F,
        out: &mut Pieces<'_, K>,
        point: u32,
        kind: &StmtKind,
    )
        requires ready { CanWrite K.Sink out.old }
        requires fits { F.is_for form.now self.now }
        requires found { AreChosenFindings self.now }
        requires point { point < point_count self.now.graph.now }
        requires kind { kind_at self.now.graph.now point ≡ Some kind.now }
        ensures { Writes K.Sink out.old out.new
            (flat_map (λ e. F.text form.now self.now.graph.now point (Computed e)) (computed_at self.now.graph.now (knowledge_of self.now) point)) }
    {
        let Some(bit) = self.graph.evaluated(point) else {
            return;
        };
        if !self.is_computed(point, kind, bit) {
            return;
        }
        form.write_remark(out, self, point, Remark::Computed { expression: bit });
    }

    // Writes which expressions of a word are very busy: those of its ones that stand for the expressions of its range.
    fn write_busy_word<F: ChosenForm, K: Sink>(
        &self,
        form: &F,
        out: &mut Pieces<'_, K>,
        point: u32,
        word: WordOnes,
    )
        requires ready { CanWrite K.Sink out.old }
        requires fits { F.is_for form.now self.now }
        requires found { AreChosenFindings self.now }
        requires point { point < point_count self.now.graph.now }
        requires word { (k : ℕ) → k < 64 → has_bit word.ones k ≡ (knowledge_of self.now).busy.contains point (word.first + k) }
        requires ordered { word.first ≤ word.end }
        requires width { word.end ≤ word.first + 64 }
        requires end { word.end ≤ bits_of self.now.graph.now Busy }
        ensures { Writes K.Sink out.old out.new
            (texts_where (λ e. F.text form.now self.now.graph.now point (VeryBusy e)) ((knowledge_of self.now).busy.contains point)
            (range_with_len word.first (word.end - word.first))) }
    {
        let WordOnes { ones, first, end } = word;
        let width = end - first;
        let mut place = next_one(ones, 0);
        while place < width {
            let expression = first + place;
            form.write_remark(out, self, point, Remark::VeryBusy { expression });
            place = next_one(ones, place + 1);
        }
    }

    // Writes which expressions are very busy at a test, word by word of those that have a bit.
    fn write_busy_words<F: ChosenForm, K: Sink>(
        &self,
        form: &F,
        out: &mut Pieces<'_, K>,
        point: u32,
        kind: &StmtKind,
    )
        requires ready { CanWrite K.Sink out.old }
        requires fits { F.is_for form.now self.now }
        requires found { AreChosenFindings self.now }
        requires point { point < point_count self.now.graph.now }
        requires kind { kind_at self.now.graph.now point ≡ Some kind.now }
        requires test { is_test_of kind.now ≡ true }
        ensures { Writes K.Sink out.old out.new
            (texts_where (λ e. F.text form.now self.now.graph.now point (VeryBusy e)) ((knowledge_of self.now).busy.contains point)
            (range_with_len 0 (bits_of self.now.graph.now Busy))) }
    {
        let _ = kind;
        let bits = self.graph.bits(Analysis::Busy);
        let mut next = self.answers.first_busy(self.answers.places(point).test);
        while let Some(busy) = self.answers.busy_word(next) {
            let (first, end) = (64 * busy.word, bits.min(64 * busy.word + 64));
            let ones = busy.mask;
            self.write_busy_word(form, out, point, WordOnes { ones, first, end });
            next = busy.next;
        }
    }

    // Whether it is told which expressions are very busy: at a test that is not doubtful.
    pub(crate) fn tells_busy(&self, point: u32, kind: &StmtKind) -> bool
        requires found { AreChosenFindings self.now }
        requires point { point < point_count self.now.graph.now }
        ensures { result ≡ (is_test_of kind.now && not ((knowledge_of self.now).doubtful point)) }
    {
        is_test(kind) && !self.doubtful[point as usize]
    }

    // Writes which expressions are very busy at a test that is not doubtful.
    fn write_busy<F: ChosenForm, K: Sink>(
        &self,
        form: &F,
        out: &mut Pieces<'_, K>,
        point: u32,
        kind: &StmtKind,
    )
        requires ready { CanWrite K.Sink out.old }
        requires fits { F.is_for form.now self.now }
        requires found { AreChosenFindings self.now }
        requires point { point < point_count self.now.graph.now }
        requires kind { kind_at self.now.graph.now point ≡ Some kind.now }
        ensures { Writes K.Sink out.old out.new
            (flat_map (λ e. F.text form.now self.now.graph.now point (VeryBusy e)) (busy_at self.now.graph.now (knowledge_of self.now) point)) }
    {
        if !self.tells_busy(point, kind) {
            return;
        }
        self.write_busy_words(form, out, point, kind);
    }

    // Whether a variable is dead behind the statement that assigns it: the point after it is not doubtful, and the variable not live there.
    fn is_dead_after(&self, point: u32, kind: &StmtKind, variable: u32) -> bool
        requires found { AreChosenFindings self.now }
        requires point { point < point_count self.now.graph.now }
        requires next { point + 1 < point_count self.now.graph.now }
        requires kind { kind_at self.now.graph.now point ≡ Some kind.now }
        requires assigned { assigned_by kind.now ≡ Some variable }
        ensures { result ≡ (not ((knowledge_of self.now).doubtful (point + 1)) && not ((knowledge_of self.now).live.contains (point + 1) variable)) }
    {
        let _ = kind;
        let next = point + 1;
        let number = self.answers.places(point).assigned;
        !self.doubtful[next as usize] && !self.has(number, Analysis::Live, next, variable)
    }

    /// Whether the statement at a point assigns a variable that is dead behind it.
    ///
    /// The conditions: what was found is of one program, and the statement stands at that point.
    pub fn sets_dead(&self, point: u32, kind: &StmtKind) -> bool
        requires found { AreFindings self.now }
        requires point { point < point_count self.now.graph.now }
        requires kind { kind_at self.now.graph.now point ≡ Some kind.now }
        ensures { result ≡ some_stand (dead_at self.now.graph.now (knowledge_of self.now) point) }
    {
        self.finds_dead(point, kind)
    }

    /// The same of findings that may be of chosen bits alone.
    pub(crate) fn finds_dead(&self, point: u32, kind: &StmtKind) -> bool
        requires found { AreChosenFindings self.now }
        requires point { point < point_count self.now.graph.now }
        requires kind { kind_at self.now.graph.now point ≡ Some kind.now }
        ensures { result ≡ some_stand (dead_at self.now.graph.now (knowledge_of self.now) point) }
    {
        match assigned_variable(kind) {
            Some(variable) => self.is_dead_after(point, kind, variable),
            None => false,
        }
    }

    // Writes that an assignment is dead, where that is so.
    fn write_dead<F: ChosenForm, K: Sink>(
        &self,
        form: &F,
        out: &mut Pieces<'_, K>,
        point: u32,
        kind: &StmtKind,
    )
        requires ready { CanWrite K.Sink out.old }
        requires fits { F.is_for form.now self.now }
        requires found { AreChosenFindings self.now }
        requires point { point < point_count self.now.graph.now }
        requires kind { kind_at self.now.graph.now point ≡ Some kind.now }
        ensures { Writes K.Sink out.old out.new
            (flat_map (λ v. F.text form.now self.now.graph.now point (Dead v)) (dead_at self.now.graph.now (knowledge_of self.now) point)) }
    {
        let Some(variable) = assigned_variable(kind) else {
            return;
        };
        if !self.is_dead_after(point, kind, variable) {
            return;
        }
        form.write_remark(out, self, point, Remark::Dead { variable });
    }

    // Writes all remarks on a statement that is reached.
    fn write_when_reached<F: ChosenForm, K: Sink>(
        &self,
        form: &F,
        out: &mut Pieces<'_, K>,
        point: u32,
        kind: &StmtKind,
    )
        requires ready { CanWrite K.Sink out.old }
        requires fits { F.is_for form.now self.now }
        requires found { AreChosenFindings self.now }
        requires point { point < point_count self.now.graph.now }
        requires kind { kind_at self.now.graph.now point ≡ Some kind.now }
        ensures { Writes K.Sink out.old out.new
            (flat_map (F.text form.now self.now.graph.now point) (remarks_when_reached self.now.graph.now (knowledge_of self.now) point)) }
    {
        self.write_unset(form, out, point, kind);
        self.write_computed(form, out, point, kind);
        self.write_busy(form, out, point, kind);
        self.write_dead(form, out, point, kind);
    }

    /// Writes the remarks of a point, each in that form: none at a procedure's end, and of a statement that is never reached
    /// that alone.
    ///
    /// The conditions: what was found is of one program, which has the point.
    pub fn write_remarks<F: RemarkForm, K: Sink>(
        &self,
        form: &F,
        out: &mut Pieces<'_, K>,
        point: u32,
    )
        requires ready { CanWrite K.Sink out.old }
        requires found { AreFindings self.now }
        requires point { point < point_count self.now.graph.now }
        ensures { Writes K.Sink out.old out.new
            (flat_map (F.text form.now self.now.graph.now point) (remarks_at self.now.graph.now (knowledge_of self.now) point)) }
    {
        self.write_chosen_remarks(&WholeForm { form }, out, point);
    }

    /// The same of findings that may be of chosen bits alone. What they say of other bits need not be so: a form leaves such remarks out.
    ///
    /// The conditions: what was found is such as the form is for, of one program, which has the point.
    pub fn write_chosen_remarks<F: ChosenForm, K: Sink>(
        &self,
        form: &F,
        out: &mut Pieces<'_, K>,
        point: u32,
    )
        requires ready { CanWrite K.Sink out.old }
        requires fits { F.is_for form.now self.now }
        requires found { AreChosenFindings self.now }
        requires point { point < point_count self.now.graph.now }
        ensures { Writes K.Sink out.old out.new
            (flat_map (F.text form.now self.now.graph.now point) (remarks_at self.now.graph.now (knowledge_of self.now) point)) }
    {
        if out.has_failed() {
            return;
        }
        let Some(stmt) = self.graph.stmt(point) else {
            return;
        };
        if self.reaches(point) {
            self.write_when_reached(form, out, point, &stmt.kind);
            return;
        }
        form.write_remark(out, self, point, Remark::NeverReached);
    }
}
