// What both texts are made of.

ghost use Rattle.std.specs.Prelude.{◌≡◌, ℕ, ◌+◌, ◌*◌, ◌-◌, ◌<◌, ◌≤◌, suc, None, Some, false, true, flat_map, length, map};
ghost use Rattle.std.specs.Prelude.{IfOk, IfSome, if◌then◌else◌};
ghost use Rattle.flow_graph.specs.Edges.{edges_from};
ghost use Rattle.flow_graph.specs.Points.{end_place, entry_point, kind_at, point_count, points, procedure_at, statement_at};
ghost use Rattle.flow_team.specs.Tables.{facts_of};
ghost use Rattle.text_pieces.specs.Pieces.{CanWrite, Writes};
ghost use Rattle.flow_views.specs.ViewTables.{AreViewTables};
ghost use Rattle.flow_views.specs.Views.{end_shown, first_shown};
ghost use Rattle.flow_reports.specs.Reports.{remarks_at};
ghost use Rattle.flow_reports.specs.Uses.{unset_uses};
ghost use Rattle.flow_reports.specs.code.Findings.{knowledge_of};
ghost use Rattle.report_answers.specs.code.Reported.{TellReport};
ghost use Rattle.point_sets.specs.Changes.{set_against, set_ahead};
ghost use Rattle.point_sets.specs.Sets.{behind, has_behind, set_on};
ghost use Rattle.point_sets.specs.code.Changes.{IsChange, old_set, told_by};
ghost use Rattle.point_sets.specs.code.PointSets.{IsPointSet};
ghost use Rattle.point_sets.specs.declared.side.Side.TheVariants.{Behind};
ghost use Rattle.tac_listing.specs.Listings.{statement_text};
ghost use Rattle.flow_views.specs.code.Names.{AreNamesOf};
ghost use Rattle.flow_views.specs.code.ViewProgram.{AreShown, AreShownProcedures, IsShownPoint, IsShownProcedure, IsShownTable, TellSame};
ghost use Rattle.flow_views.specs.code.ViewProgram.{contents};
ghost use Rattle.flow_views.specs.code.ViewProgram.{known_of, numbers_of};
ghost use Rattle.text_pieces.specs.Strings.{escaped};
ghost use Rattle.flow_views.specs.Views.{names_at, points_in, procedure_name, shown_points, is_chosen};
ghost use Rattle.flow_views.specs.Views.{shown_procedures, known_facts, label_name, labels_at, marks_at, outcome};

use crate::OutOfMemory;
use crate::marks::PointMarks;
use crate::names::{NameForm, Names};
use crate::outcomes::outcome_by;
use crate::point_form::PointForm;
use crate::point_names::{
    labels_of, name_of_label, name_of_procedure, scope_of, write_statement_of,
};
use crate::view::View;
use crate::view_tables::{ViewTables, shown_points};
use flow_graph::{Analysis, Edge, Graph};
use flow_reports::{Findings, RemarkForm, UnsetUse};
use flow_team::Table;
use point_sets::{Change, PointSet, Side};
use report_answers::ReportAnswers;
use smallvec::SmallVec;
use std::alloc::Global;
use tac_listing::Scope;
use tac_program::{Label, Stmt, StmtKind};
use text_pieces::{Pieces, Sink, TextBlock};

/// Numbers from the first on and before the end.
#[derive(Clone, Copy)]
pub struct Numbers {
    /// The first number.
    pub first: u32,
    /// The number behind the last.
    pub end: u32,
}

/// What was found of a program, what the bits of its analyses are called, its edges, and what is shown of it.
#[derive(Drop)]
pub struct ViewProgram<'a> {
    /// What was found.
    pub found: Findings<'a>,
    /// The tables of the analyses whose facts are shown.
    pub(crate) tables: &'a ViewTables,
    /// What its bits are called.
    pub names: Names,
    /// The edges out of each point.
    pub(crate) successors: Vec<SmallVec<Edge, 2, Global>>,
    /// What is shown.
    pub view: View,
}

/// The points of a procedure.
pub(crate) fn points_of(graph: &Graph<'_>, procedure: u32) -> Numbers
    requires { procedure < length graph.now.procedures }
    ensures numbers { numbers_of result ≡ points_in graph.now procedure }
    ensures first { result.first ≡ entry_point graph.now procedure }
    ensures end { result.end ≡ entry_point graph.now procedure + suc (end_place graph.now procedure) }
    ensures ordered { result.first ≤ result.end }
    ensures there { result.end ≤ point_count graph.now }
{
    // Its contract tells that there are few points.
    let _ = graph.points();
    let procs = graph.program().procs();
    let places = procs[procedure as usize].stmts().len() as u32;
    let first = graph.point(procedure, 0);
    let last = graph.point(procedure, places);
    Numbers {
        first,
        end: last + 1,
    }
}

/// The edges out of each point. Fails only where memory runs out.
pub fn successors(
    alloc: Global,
    graph: &Graph<'_>,
) -> Result<Vec<SmallVec<Edge, 2, Global>>, OutOfMemory>
    ensures { IfOk result (λ lists. contents lists.items ≡ map (edges_from graph.now) (points graph.now)) }
{
    let mut lists = Vec::with_capacity(alloc, graph.points() as usize)?;
    for point in 0..graph.points() {
        lists.push(graph.succ(alloc, point)?)?;
    }
    Ok(lists)
}

// The point before one, or the point itself where it is the first of its procedure.
fn point_ahead(point: u32, is_first: bool) -> u32
    ensures { result ≡ (if is_first then point else point - 1) }
{
    if is_first {
        point
    } else {
        point.saturating_sub(1)
    }
}

impl<'a> ViewProgram<'a> {
    /// What is shown of a graph with its tables, and the names of bits in this form.
    ///
    /// The conditions: the answers to what a report asks and the tables are of this graph, these of the analyses that are shown, and the
    /// procedure is there. Fails only where memory runs out.
    pub fn of(
        alloc: Global,
        graph: &'a Graph<'a>,
        tables: &'a ViewTables,
        answers: &'a ReportAnswers,
        view: View,
        form: NameForm,
    ) -> Result<ViewProgram<'a>, OutOfMemory>
        requires tables { AreViewTables graph.now view tables.now }
        requires answers { TellReport graph.now answers.now }
        requires procedure { IfSome view.procedure (λ procedure. procedure < length graph.now.procedure_names) }
        ensures program { IfOk result (λ shown. shown.found.graph.now ≡ graph.now) }
        ensures view { IfOk result (λ shown. shown.view ≡ view) }
        ensures form { IfOk result (λ shown. shown.names.form ≡ form) }
        ensures shown { IfOk result AreShown }
    {
        let found = Findings::of(alloc, graph, answers)?;
        let names = Names::of(alloc, graph, form)?;
        let successors = successors(alloc, graph)?;
        Ok(ViewProgram {
            found,
            tables,
            names,
            successors,
            view,
        })
    }
}

impl ViewProgram<'_> {
    /// What the bits of an analysis are called.
    pub fn names(&self, analysis: Analysis) -> &TextBlock
        requires { AreShown self.now }
        ensures { AreNamesOf self.now.names.form self.now.found.graph.now analysis result.now }
    {
        match analysis {
            Analysis::Reach => &self.names.definitions,
            Analysis::Live => &self.names.variables,
            Analysis::Avail => &self.names.expressions,
            Analysis::Busy => &self.names.expressions,
        }
    }

    /// The table of an analysis, where its facts are shown.
    pub fn table(&self, analysis: Analysis) -> Option<&Table>
        requires { AreShown self.now }
        ensures none { result ≡ None → is_chosen self.now.view.facts analysis ≡ false }
        ensures some { IfSome result (λ table. is_chosen self.now.view.facts analysis ≡ true) }
        ensures points { IfSome result
            (λ table. length table.now.paths ≡ end_shown self.now.found.graph.now self.now.view.procedure) }
        ensures facts { IfSome result (λ table. (point : ℕ) → IsShownPoint self.now point
            → TellSame (facts_of table.now) (known_facts (known_of self.now) analysis) point) }
        ensures analysis { IfSome result (λ table. table.now.analysis ≡ analysis) }
        ensures shown { IfSome result (λ table. IsShownTable self.now table.now) }
    {
        self.tables.table(analysis)
    }

    /// Writes the remarks of a point, each in that form.
    pub fn write_remarks_at<F: RemarkForm, K: Sink>(
        &self,
        form: &F,
        out: &mut Pieces<'_, K>,
        point: u32,
    )
        requires ready { CanWrite K.Sink out.old }
        requires shown { AreShown self.now }
        requires point { point < point_count self.now.found.graph.now }
        ensures { Writes K.Sink out.old out.new
            (flat_map (F.text form.now self.now.found.graph.now point) (remarks_at self.now.found.graph.now (known_of self.now) point)) }
    {
        self.found.write_remarks(form, out, point);
    }

    // What is marked of a statement that is reached.
    fn statement_marks(&self, point: u32, kind: &StmtKind) -> PointMarks
        requires shown { AreShown self.now }
        requires point { point < point_count self.now.found.graph.now }
        requires kind { kind_at self.now.found.graph.now point ≡ Some kind.now }
        requires reached { (known_of self.now).reach.has_path point ≡ true }
        ensures { result ≡ marks_at self.now.found.graph.now (known_of self.now) point }
    {
        PointMarks {
            reached: true,
            unset: self.found.reads_unset(point, kind),
            dead: self.found.sets_dead(point, kind),
            doubtful: self.is_doubtful(point),
        }
    }

    /// What is marked of a point.
    ///
    /// The conditions: it is one program that is shown, and the point is one of its.
    pub fn marks(&self, point: u32) -> PointMarks
        requires shown { AreShown self.now }
        requires point { point < point_count self.now.found.graph.now }
        ensures { result ≡ marks_at self.now.found.graph.now (known_of self.now) point }
    {
        if !self.found.is_reached(point) {
            return PointMarks {
                reached: false,
                unset: false,
                dead: false,
                doubtful: self.is_doubtful(point),
            };
        }
        match self.found.graph.stmt(point) {
            Some(stmt) => self.statement_marks(point, &stmt.kind),
            None => PointMarks {
                reached: true,
                unset: false,
                dead: false,
                doubtful: self.is_doubtful(point),
            },
        }
    }

    /// The uses of variables that may not be set there, at the points that are shown, in their order. Fails only where memory runs out.
    ///
    /// The condition: it is one program that is shown.
    pub fn unset_uses(&self, alloc: Global) -> Result<Vec<UnsetUse>, OutOfMemory>
        requires { AreShown self.now }
        ensures uses { IfOk result (λ uses. uses.items ≡ unset_uses self.now.found.graph.now (knowledge_of self.now.found)
            (first_shown self.now.found.graph.now self.now.view.procedure)
            (end_shown self.now.found.graph.now self.now.view.procedure - first_shown self.now.found.graph.now self.now.view.procedure)) }
        ensures few { IfOk result (λ uses. length uses.items ≤ 2 * point_count self.now.found.graph.now) }
    {
        let points = shown_points(self.found.graph, self.view.procedure);
        self.found.unset_uses(alloc, points.first, points.end)
    }

    /// The edges out of a point.
    pub fn edges(&self, point: u32) -> &[Edge]
        requires shown { AreShown self.now }
        requires point { point < point_count self.now.found.graph.now }
        ensures { result.now ≡ edges_from self.now.found.graph.now point }
    {
        self.successors[point as usize].as_slice()
    }

    /// The set of a table that is shown, before the statement at a point or behind it.
    ///
    /// The conditions: it is one program that is shown, the table is one of its tables, the point is shown, and a set of its own stands on that
    /// side.
    pub fn point_set<'b>(&'b self, table: &'b Table, point: u32, side: Side) -> PointSet<'b>
        requires shown { AreShown self.now }
        requires table { IsShownTable self.now table.now }
        requires point { point < point_count self.now.found.graph.now }
        requires shows { IsShownPoint self.now point }
        requires side { side ≡ Behind → has_behind self.now.found.graph.now point ≡ true }
        ensures set { IsPointSet result }
        ensures graph { result.graph.now ≡ self.now.found.graph.now }
        ensures table { result.table.now ≡ table.now }
        ensures hides { result.hides_entry ≡ self.now.view.look.hides_entry }
        ensures tells { set_on result.side result.graph.now result.table.now.analysis (facts_of result.table.now) result.point
            ≡ set_on side self.now.found.graph.now table.now.analysis (known_facts (known_of self.now) table.now.analysis) point }
    {
        PointSet {
            graph: self.found.graph,
            table,
            edges: self.edges(point),
            point,
            side,
            hides_entry: self.view.look.hides_entry,
        }
    }

    // What changes from the point before one in its procedure to it, in a table that is shown.
    fn change_ahead<'b>(&'b self, table: &'b Table, point: u32) -> Change<'b>
        requires shown { AreShown self.now }
        requires table { IsShownTable self.now table.now }
        requires point { point < point_count self.now.found.graph.now }
        requires shows { IsShownPoint self.now point }
        ensures change { IsChange result }
        ensures graph { result.new.graph.now ≡ self.now.found.graph.now }
        ensures table { result.new.table.now ≡ table.now }
        ensures hides { result.new.hides_entry ≡ self.now.view.look.hides_entry }
        ensures old { old_set result ≡ set_ahead self.now.found.graph.now (known_facts (known_of self.now) table.now.analysis) point }
        ensures new { told_by result.new ≡ (known_facts (known_of self.now) table.now.analysis).contains point }
    {
        let is_first = self.found.graph.place(point).place == 0;
        let ahead = point_ahead(point, is_first);
        Change {
            old: self.point_set(table, ahead, Side::Before),
            from_none: is_first,
            new: self.point_set(table, point, Side::Before),
        }
    }

    // What the statement at a point, which is no call, changes in a table that is shown.
    fn change_behind<'b>(&'b self, table: &'b Table, point: u32) -> Change<'b>
        requires shown { AreShown self.now }
        requires table { IsShownTable self.now table.now }
        requires point { point < point_count self.now.found.graph.now }
        requires shows { IsShownPoint self.now point }
        requires behind { has_behind self.now.found.graph.now point ≡ true }
        ensures change { IsChange result }
        ensures graph { result.new.graph.now ≡ self.now.found.graph.now }
        ensures table { result.new.table.now ≡ table.now }
        ensures hides { result.new.hides_entry ≡ self.now.view.look.hides_entry }
        ensures old { old_set result ≡ (known_facts (known_of self.now) table.now.analysis).contains point }
        ensures new { told_by result.new
            ≡ behind self.now.found.graph.now table.now.analysis (known_facts (known_of self.now) table.now.analysis) point }
    {
        Change {
            old: self.point_set(table, point, Side::Before),
            from_none: false,
            new: self.point_set(table, point, Side::Behind),
        }
    }

    /// What changes in a table that is shown up to the set on a side of the statement at a point: from the point before in its procedure to the set
    /// before it, and from that to the set behind it.
    ///
    /// The conditions: it is one program that is shown, the table is one of its tables, the point is shown, and a set of its own stands on that
    /// side.
    pub fn change<'b>(&'b self, table: &'b Table, point: u32, side: Side) -> Change<'b>
        requires shown { AreShown self.now }
        requires table { IsShownTable self.now table.now }
        requires point { point < point_count self.now.found.graph.now }
        requires shows { IsShownPoint self.now point }
        requires side { side ≡ Behind → has_behind self.now.found.graph.now point ≡ true }
        ensures change { IsChange result }
        ensures graph { result.new.graph.now ≡ self.now.found.graph.now }
        ensures table { result.new.table.now ≡ table.now }
        ensures hides { result.new.hides_entry ≡ self.now.view.look.hides_entry }
        ensures old { old_set result
            ≡ set_against side self.now.found.graph.now (known_facts (known_of self.now) table.now.analysis) point }
        ensures new { told_by result.new
            ≡ set_on side self.now.found.graph.now table.now.analysis (known_facts (known_of self.now) table.now.analysis) point }
    {
        match side {
            Side::Before => self.change_ahead(table, point),
            Side::Behind => self.change_behind(table, point),
        }
    }

    /// The outcome of a test by which control goes from a point to another.
    pub fn outcome(&self, source: u32, target: u32) -> Option<bool>
        requires shown { AreShown self.now }
        requires source { source < point_count self.now.found.graph.now }
        ensures { result ≡ outcome self.now.found.graph.now source target }
    {
        outcome_by(self.found.graph, self.edges(source), source, target)
    }

    /// The labels of a point.
    pub fn labels(&self, point: u32) -> &[Label]
        requires { point < point_count self.now.found.graph.now }
        ensures { result.now ≡ labels_at self.now.found.graph.now point }
    {
        labels_of(self.found.graph, point)
    }

    /// The name of a label of a point.
    pub fn label_name(&self, point: u32, label: Label) -> &[u8]
        requires { point < point_count self.now.found.graph.now }
        ensures { result.now ≡ label_name self.now.found.graph.now point label }
    {
        name_of_label(self.found.graph, point, label)
    }

    /// Whether a point is doubtful.
    pub fn is_doubtful(&self, point: u32) -> bool
        requires shown { AreShown self.now }
        requires point { point < point_count self.now.found.graph.now }
        ensures { result ≡ (known_of self.now).doubtful point }
    {
        self.found.doubtful[point as usize]
    }

    /// The procedures that are shown.
    pub fn procedures(&self) -> Numbers
        requires { AreShown self.now }
        ensures numbers { numbers_of result ≡ shown_procedures self.now.found.graph.now self.now.view }
        ensures ordered { result.first ≤ result.end }
        ensures there { result.end ≤ length self.now.found.graph.now.procedures }
        ensures shown { AreShownProcedures self.now.view.procedure result }
    {
        let procs = self.found.graph.program().procs();
        match self.view.procedure {
            Some(procedure) => Numbers {
                first: procedure,
                end: procedure + 1,
            },
            None => Numbers {
                first: 0,
                end: procs.len() as u32,
            },
        }
    }

    /// The points of a procedure.
    pub fn points_of(&self, procedure: u32) -> Numbers
        requires shown { AreShown self.now }
        requires procedure { procedure < length self.now.found.graph.now.procedures }
        ensures numbers { numbers_of result ≡ points_in self.now.found.graph.now procedure }
        ensures first { result.first ≡ entry_point self.now.found.graph.now procedure }
        ensures end { result.end ≡ entry_point self.now.found.graph.now procedure + suc (end_place self.now.found.graph.now procedure) }
        ensures there { result.end ≤ point_count self.now.found.graph.now }
    {
        points_of(self.found.graph, procedure)
    }

    /// The name of a procedure.
    pub fn procedure_name(&self, procedure: u32) -> &[u8]
        requires { procedure < length self.now.found.graph.now.procedures }
        ensures { result.now ≡ procedure_name self.now.found.graph.now procedure }
    {
        name_of_procedure(self.found.graph, procedure)
    }

    /// The procedure of a point.
    pub fn scope(&self, point: u32) -> Scope<'_>
        requires { point < point_count self.now.found.graph.now }
        ensures program { result.program.now ≡ self.now.found.graph.now }
        ensures procedure { result.procedure ≡ procedure_at self.now.found.graph.now point }
        ensures there { result.procedure < length self.now.found.graph.now.procedures }
    {
        scope_of(self.found.graph, point)
    }

    /// Writes the statement at a point as it stands between quotes.
    pub fn write_statement<K: Sink>(&self, out: &mut Pieces<'_, K>, point: u32, stmt: &Stmt)
        requires ready { CanWrite K.Sink out.old }
        requires shown { AreShown self.now }
        requires point { point < point_count self.now.found.graph.now }
        requires statement { statement_at self.now.found.graph.now point ≡ Some stmt.now }
        ensures { Writes K.Sink out.old out.new (escaped (statement_text (names_at self.now.found.graph.now point) stmt.now.kind)) }
    {
        write_statement_of(self.found.graph, out, point, stmt);
    }

    /// Writes each point of a procedure that is shown.
    pub fn write_points<F: PointForm, K: Sink>(
        &self,
        form: &F,
        out: &mut Pieces<'_, K>,
        procedure: u32,
    )
        requires ready { CanWrite K.Sink out.old }
        requires shown { AreShown self.now }
        requires form { self.now.names.form ≡ F.name_form form.now }
        requires procedure { procedure < length self.now.found.graph.now.procedures }
        requires shows { IsShownProcedure self.now.view.procedure procedure }
        ensures { Writes K.Sink out.old out.new (flat_map (F.text form.now self.now) (points_in self.now.found.graph.now procedure)) }
    {
        let points = self.points_of(procedure);
        for point in points.first..points.end {
            form.write_point(out, self, point);
        }
    }

    /// Writes each point that is shown.
    pub fn write_all_points<F: PointForm, K: Sink>(&self, form: &F, out: &mut Pieces<'_, K>)
        requires ready { CanWrite K.Sink out.old }
        requires shown { AreShown self.now }
        requires form { self.now.names.form ≡ F.name_form form.now }
        ensures { Writes K.Sink out.old out.new (flat_map (F.text form.now self.now) (shown_points self.now.found.graph.now self.now.view)) }
    {
        let procedures = self.procedures();
        for procedure in procedures.first..procedures.end {
            self.write_points(form, out, procedure);
        }
    }
}
